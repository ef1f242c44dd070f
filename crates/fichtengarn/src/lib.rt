// The calls for C and Rust: each call of 01 and of the requests as a function in numbers and lent memory alone. The crate
// fichtengarn_c exports each under its name, with the same contract.
//
// Each returns 0, or the number of the refusal. The values that go with a 0 are stored in lent memory, from its front; a
// refusal stores none. The call that shows one rule returns where its part stands, and stores that number in a lent byte;
// those that make a record return it behind the number. include/fichtengarn.h says the same to C.
#![tactic(auto)]

ghost use Rattle.std.specs.Prelude.{length, take, ℕ, ◌+◌, ◌<◌, true, false, List, ◌≡◌};
ghost use Rattle.files.specs.Answer.{told, code_of, left_by, accepted};
ghost use Rattle.files.specs.Edits.{Edit};
ghost use Rattle.files.specs.Calls.{Counts, count_values, yes_no, role_question, read_both, rule_question, judge, mine_answer, mine_output, verdict_told, shown_place, shown_byte, circle_answer, circle_output};
ghost use Rattle.files.specs.Beside.{beside_of};
ghost use Rattle.files.specs.Demand3.{Demand3};
ghost use Rattle.files.specs.Denials.{denial_answer};
ghost use Rattle.files.specs.Load.{load_answer, load_output, Readable};
ghost use Rattle.files.specs.RoleFile.{read_roles, read_commands};
ghost use Rattle.files.specs.Windows.{worst_values};
ghost use Rattle.policy.specs.Circles.{closes, Circle};
ghost use Rattle.policy.specs.Policy.{Policy};
ghost use Rattle.load_file.specs.GeneratedNumbers.{bytes_written};
ghost use Rattle.right_edits.specs.EveryList.{LoadedFrom, EveryList};
ghost use Rattle.right_edits.specs.Standing.{standing, fill_answer, standing_answer};
ghost use Rattle.right_record.specs.Reassigned.{an_edit};
ghost use Rattle.answers.specs.Records.{loaded_of};
ghost use Rattle.role_circle.specs.CircledNumbers.{roles_listed};
ghost use Rattle.sets.specs.Tests.{Is, ◌is_in◌};
ghost use Rattle.answers.specs.Numbers.{returned, stored, no_values, rules_told};

use answers::{Edited, Loaded};
use policy::Weights;
use role_record::{RoleFile, Sizes};

// Whether a role file may be read: 0, or 1 to 7.
pub fn fichtengarn_read_roles(file: &[u8]) -> usize
    ensures { result ≡ returned (told no_values (read_roles 2 file.now)) }
{
    answers::code(&role_file::read(file))
}

// Whether a rule file may be read beside a role file, and how many rules it has.
pub fn fichtengarn_read_rules(file: &[u8], rules: &[u8], count: &mut [usize; 1]) -> usize
    ensures { (result ≡ returned (told rules_told (read_both 2 file.now rules.now)))
        × (count.new
        ≡ stored (told rules_told (read_both 2 file.now rules.now)) count.old) }
{
    answers::store(rule_file::read(file, rules), count)
}

// Whether the roles grant a triple: 1 for yes, 0 for no.
pub fn fichtengarn_ask_roles(
    file: &[u8],
    user: usize,
    resource: usize,
    operation: usize,
    answer: &mut [usize; 1],
) -> usize
    ensures { (result ≡ returned (told yes_no (role_question 2 file.now user resource operation)))
        × (answer.new
        ≡ stored (told yes_no (role_question 2 file.now user resource operation))
        answer.old) }
{
    answers::store(role_question::ask(file, user, resource, operation), answer)
}

// Whether some rule grants a triple: 1 for yes, 0 for no.
pub fn fichtengarn_ask_rules(
    file: &[u8],
    rules: &[u8],
    user: usize,
    resource: usize,
    operation: usize,
    answer: &mut [usize; 1],
) -> usize
    ensures { (result ≡ returned (told yes_no (rule_question 2 file.now rules.now user resource operation)))
        × (answer.new
        ≡ stored (told yes_no (rule_question 2 file.now rules.now user resource operation))
        answer.old) }
{
    answers::store(
        rule_question::ask(file, rules, user, resource, operation),
        answer,
    )
}

// The verdict on a rule file and what goes with it: the triple, the rule or the part.
pub fn fichtengarn_judge(file: &[u8], rules: &[u8], verdict: &mut [usize; 4]) -> usize
    ensures { (result ≡ returned (told verdict_told (judge 2 file.now rules.now)))
        × (verdict.new
        ≡ stored (told verdict_told (judge 2 file.now rules.now))
        verdict.old) }
{
    answers::store(rule_judge::judge(file, rules), verdict)
}

// A part of the rule file that was lent: its first byte, and how many it has. It stands in for the part itself, since no reference is
// handed over to C.
#[repr(C)]
#[derive(Clone, Copy)]
pub struct Part {
    pub start: usize,
    pub length: usize,
}

// One rule by its number: where it stands in the rule file, and in the lent byte 0 or the refusal's number.
pub fn fichtengarn_show(file: &[u8], rules: &[u8], rule: usize, answer: &mut u8) -> Part
    ensures { (result.start ≡ (shown_place 2 file.now rules.now rule).0)
        × (result.start + result.length ≡ (shown_place 2 file.now rules.now rule).1)
        × (answer.new ≡ shown_byte 2 file.now rules.now rule) }
{
    let place = rule_show::tell(rule_show::locate(file, rules, rule), answer);
    Part {
        start: place.from,
        length: place.to - place.from,
    }
}

// The circle of a role file with refusal 7: its roles in the lent memory, and how many they are.
pub fn fichtengarn_circle(file: &[u8], roles: &mut [u8], count: &mut [usize; 1]) -> usize
    ensures { (result
        ≡ returned (told roles_listed (circle_answer 2 file.now (length roles.old))))
        × (count.new
        ≡ stored (told roles_listed (circle_answer 2 file.now (length roles.old)))
        count.old)
        × (roles.new ≡ circle_output 2 file.now roles.old)
        × ((list : List ℕ)
        → circle_answer 2 file.now (length roles.old) ≡ accepted list
        → (F : Policy)
        × (read_commands 2 file.now ≡ accepted F)
        × Circle F (take (length list) roles.new)
        × ((l : List ℕ) → Is (closes F.line l) → (k : ℕ) → k is_in l → k < F.roles)) }
{
    answers::store(role_circle::circle(file, roles), count)
}

// A role file made from a seed and four sizes, in the memory for output, and how long it is. The reader accepts it.
pub fn fichtengarn_load(
    seed: u32,
    users: usize,
    resources: usize,
    operations: usize,
    roles: usize,
    out: &mut [u8],
    count: &mut [usize; 1],
) -> usize
    ensures { (result
        ≡ returned
        (told bytes_written (load_answer 2 seed users resources operations roles (length out.old))))
        × (count.new
        ≡ stored
        (told bytes_written (load_answer 2 seed users resources operations roles (length out.old)))
        count.old)
        × (out.new ≡ load_output 2 seed users resources operations roles out.old)
        × ((n : ℕ)
        → load_answer 2 seed users resources operations roles (length out.old) ≡ accepted n
        → Readable 2 users resources operations roles (take n out.new)) }
{
    let sizes = Sizes {
        users,
        resources,
        operations,
        roles,
    };
    answers::store(load_file::generate(seed, sizes, out), count)
}

// Denials in a usage log, in windows of so many records: the most that the rules deny in one, and the lowest record from which so many are.
pub fn fichtengarn_denials(
    file: &[u8],
    rules: &[u8],
    log: &[u8],
    window: usize,
    denials: &mut [usize; 2],
) -> usize
    ensures { (result
        ≡ returned
        (told worst_values
        (denial_answer 2 file.now rules.now log.now window)))
        × (denials.new
        ≡ stored
        (told worst_values
        (denial_answer 2 file.now rules.now log.now window))
        denials.old) }
{
    answers::store(log_denials::denials(file, rules, log, window), denials)
}

// Mining, within the runs of roles that the cuts make first: the rule file in the memory for output, and length, parts, rules, merges and the
// cost by these weights.
pub fn fichtengarn_mine(
    file: &[u8],
    cuts: &[u8],
    weights: Weights,
    scratch: &mut [u64],
    out: &mut [u8],
    counts: &mut [u64; 5],
) -> usize
    ensures { (result
        ≡ returned
        (told count_values
        (mine_answer 2 file.now cuts.now weights (length scratch.old)
        (length out.old))))
        × (counts.new
        ≡ stored
        (told count_values
        (mine_answer 2 file.now cuts.now weights (length scratch.old)
        (length out.old)))
        counts.old)
        × (out.new
        ≡ mine_output 2 file.now cuts.now (length scratch.old)
        out.old)
        × ((c : Counts)
        → mine_answer 2 file.now cuts.now weights (length scratch.old)
        (length out.old)
        ≡ accepted c
        → (F : Policy)
        × (read_roles 2 file.now ≡ accepted F)
        × Demand3 2 cuts.now weights (beside_of F) (take c.size out.new) c) }
{
    answers::store(mining::mine(file, cuts, weights, scratch, out), counts)
}

// A role file read into a record, which the caller keeps: 0 and the record, or 1 to 7 and the empty one.
pub fn fichtengarn_read_record(file: &[u8]) -> Loaded
    ensures { result ≡ loaded_of (read_roles 2 file.now) }
{
    match role_file::read(file) {
        Ok(file) => Loaded { code: 0, file },
        Err(refusal) => Loaded {
            code: refusal.number(),
            file: RoleFile::empty(),
        },
    }
}

// The standing summary of rights: fills a table from a record, any record.
pub fn fichtengarn_fill(loaded: RoleFile, table: &mut [u64]) -> usize
    ensures { (result ≡ code_of (fill_answer loaded (length table.old)))
        × (table.new ≡ left_by table.old (fill_answer loaded (length table.old)))
        × ((file : List ℕ)
        → (F : Policy)
        → LoadedFrom file F loaded
        → result ≡ 0
        → (es : List Edit)
        → EveryList F (standing loaded table.new) es) }
{
    answers::code(&right_edits::fill(&loaded, table))
}

// Assigns a user to a role: the record and the table after it, or both as they were.
pub fn fichtengarn_assign(loaded: RoleFile, table: &mut [u64], role: usize, user: usize) -> Edited
    ensures { (result.code ≡ code_of (standing_answer (standing loaded table.old) (an_edit true role user)))
        × (standing result.file table.new
        ≡ left_by (standing loaded table.old)
        (standing_answer (standing loaded table.old) (an_edit true role user))) }
{
    let mut file = loaded;
    let code = answers::code(&right_edits::edit(&mut file, table, true, role, user));
    Edited { code, file }
}

// Takes the assignment of a user to a role away: the same.
pub fn fichtengarn_withdraw(loaded: RoleFile, table: &mut [u64], role: usize, user: usize) -> Edited
    ensures { (result.code ≡ code_of (standing_answer (standing loaded table.old) (an_edit false role user)))
        × (standing result.file table.new
        ≡ left_by (standing loaded table.old)
        (standing_answer (standing loaded table.old) (an_edit false role user))) }
{
    let mut file = loaded;
    let code = answers::code(&right_edits::edit(&mut file, table, false, role, user));
    Edited { code, file }
}
