// An answer as it is handed over to C, in 01's numbers: the first, 0 or the number of a refusal, is returned; the values that go with a 0 are
// stored at the front of lent memory, or what they are stands in a record behind the number.
#![tactic(auto)]

ghost use Rattle.std.specs.Prelude.{ℕ, List, [], ◌∷◌, ◌≡◌};
ghost use Rattle.answers.specs.Numbers.{front, returned, stored};
ghost use Rattle.files.specs.Answer.{told, code_of};
ghost use Rattle.files.specs.Calls.{yes_no};
ghost use Rattle.files.specs.Cause.{answer_of};
ghost use Rattle.log_windows.specs.Counting.{worst_numbers};
ghost use Rattle.rule_judge.specs.Judgement.{verdict_numbers};
ghost use Rattle.write_answer.specs.MinedNumbers.{mined_numbers};

use files::Refusal;
use log_windows::Worst;
use role_record::RoleFile;
use rule_judge::Verdict;
use rule_reading::BothFiles;
use write_answer::Mined;

// A role file read into a record: 0 and the record, or the number of the refusal and the empty one.
#[repr(C)]
#[derive(Clone, Copy)]
pub struct Loaded {
    pub code: usize,
    pub file: RoleFile,
}

// A record after an edit: 0 and the record, or the number of the refusal and the record as it was.
#[repr(C)]
#[derive(Clone, Copy)]
pub struct Edited {
    pub code: usize,
    pub file: RoleFile,
}

// What can be told of with a 0: the values of it, and the memory that has room for them, in which they are put.
pub trait Told {
    type Memory;

    ghost words: { Self.Memory → List ℕ };

    ghost values: { Self → List ℕ };

    fn put(self, memory: &mut Self::Memory)
        ensures { words memory.new ≡ front (values self) (words memory.old) };
}

// How many there are of something.
impl Told for usize {
    type Memory = [usize; 1];

    ghost words = { λ m. m };

    ghost values = { λ n. n ∷ [] };

    fn put(self, memory: &mut [usize; 1]) {
        memory[0] = self;
    }
}

// Of a rule file that was read beside a role file: how many rules it has.
impl Told for BothFiles {
    type Memory = [usize; 1];

    ghost words = { λ m. m };

    ghost values = { λ b. b.rules ∷ [] };

    fn put(self, memory: &mut [usize; 1]) {
        memory[0] = self.rules;
    }
}

// 1 for yes, 0 for no.
impl Told for bool {
    type Memory = [usize; 1];

    ghost words = { λ m. m };

    ghost values = { yes_no };

    fn put(self, memory: &mut [usize; 1]) {
        memory[0] = self as usize;
    }
}

impl Told for Worst {
    type Memory = [usize; 2];

    ghost words = { λ m. m };

    ghost values = { worst_numbers };

    fn put(self, memory: &mut [usize; 2]) {
        memory[0] = self.most;
        memory[1] = self.start;
    }
}

// The verdict's number first.
impl Told for Verdict {
    type Memory = [usize; 4];

    ghost words = { λ m. m };

    ghost values = { verdict_numbers };

    fn put(self, memory: &mut [usize; 4]) {
        match self {
            Verdict::Sound => memory[0] = 0,
            Verdict::Differ(user, resource, operation) => {
                memory[0] = 1;
                memory[1] = user;
                memory[2] = resource;
                memory[3] = operation;
            }
            Verdict::StrayRule(rule) => {
                memory[0] = 2;
                memory[1] = rule;
            }
            Verdict::StrayPart(part) => {
                memory[0] = 3;
                memory[1] = part;
            }
        }
    }
}

// In words of 64 bits, since the cost has so many.
impl Told for Mined {
    type Memory = [u64; 5];

    ghost words = { λ m. m };

    ghost values = { mined_numbers };

    fn put(self, memory: &mut [u64; 5]) {
        memory[0] = self.length as u64;
        memory[1] = self.parts as u64;
        memory[2] = self.rules as u64;
        memory[3] = self.merges as u64;
        memory[4] = self.cost;
    }
}

// The number of an answer: 0, or that of the refusal.
pub fn code<T>(answer: &Result<T, Refusal>) -> usize
    ensures { result ≡ code_of (answer_of answer.now) }
{
    match answer {
        Ok(_) => 0,
        Err(refusal) => refusal.number(),
    }
}

// Stores the values that go with a 0, and returns the number; a refusal stores none.
pub fn store<T: Told>(answer: Result<T, Refusal>, memory: &mut T::Memory) -> usize
    ensures { (result ≡ returned (told T.values (answer_of answer)))
        × (T.words memory.new
        ≡ stored (told T.values (answer_of answer)) (T.words memory.old)) }
{
    let number = code(&answer);
    if let Ok(value) = answer {
        value.put(memory);
    }
    number
}
