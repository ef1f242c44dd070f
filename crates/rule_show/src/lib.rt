// One rule of a rule file: that part of the file itself, from its 21 up to the next command 21 or 2F.
#![tactic(auto)]

ghost use Rattle.std.specs.Prelude.{eqb, length, ◌||◌, ◌≡◌, ◌<◌, ◌≤◌};
ghost use Rattle.files.specs.Answer.{code_of, map_answer};
ghost use Rattle.files.specs.Calls.{show_answer, shown_part, shown_byte};
ghost use Rattle.files.specs.Cause.{answer_of};
ghost use Rattle.files.specs.RulePart.{size_of, rule_start};
ghost use Rattle.rule_show.specs.Located.{place_of, Within, place_or_start};

use files::{Refusal, rule_byte};

// Where the part that is handed back begins and ends.
#[derive(Clone, Copy)]
pub struct Place {
    pub from: usize,
    pub to: usize,
}

// The bytes that the command of this byte takes, that byte among them. A byte that is no command is passed over alone; files that are
// accepted have none.
fn size_of(b: usize) -> usize
    ensures { (result ≡ size_of 2 b) × (result ≤ 10) }
{
    match b {
        rule_byte::OPENS | rule_byte::ENDS => 1,
        rule_byte::USER_SINGLE | rule_byte::RESOURCE_SINGLE | rule_byte::PART => 4,
        rule_byte::USER_SET | rule_byte::RESOURCE_SET => 10,
        rule_byte::OPERATIONS => 3,
        rule_byte::LINK => 3,
        rule_byte::SHAPE => 7,
        rule_byte::LEVEL => 2,
        _ => 1,
    }
}

// Whether a command is one at which a rule begins, or the file ends.
fn is_mark(b: usize) -> bool
    ensures { result ≡ (eqb b 0x21 || eqb b 0x2F) }
{
    b == rule_byte::OPENS || b == rule_byte::ENDS
}

// Where rule n begins: from command to command, since a 21 among operands is none. What stands behind the last rule is the end of the file.
fn rule_start(rules: &[u8], n: usize) -> usize
    ensures { result ≡ rule_start 2 rules.now n }
{
    let mut ahead = n;
    let mut at: usize = 0;
    while at < rules.len() {
        let b = file_bytes::byte_at(rules, at);
        let next = at + size_of(b);
        if is_mark(b) {
            if ahead == 0 {
                return at;
            }
            ahead = ahead - 1;
        }
        at = next;
    }
    rules.len()
}

// Any number may be handed in: one that no rule has is refused, after the refusals of both files.
pub fn locate(file: &[u8], rules: &[u8], n: usize) -> Result<Place, Refusal>
    ensures { (answer_of result ≡ map_answer place_of (show_answer 2 file.now rules.now n))
        × Within rules.now result }
{
    let b = rule_file::read(file, rules)?;
    if b.rules <= n {
        return Err(Refusal::NoSuchRule);
    }
    let from = rule_start(rules, n);
    let to = rule_start(rules, n + 1);
    Ok(Place { from, to })
}

// Puts the answer's number into the lent byte, a refusal's too; and the part that is handed back, which is the empty one at the file's start
// after a refusal.
pub fn tell(located: Result<Place, Refusal>, answer: &mut u8) -> Place
    ensures { (answer.new ≡ code_of (answer_of located)) × (result ≡ place_or_start located) }
{
    match located {
        Ok(place) => {
            *answer = 0;
            place
        }
        Err(refusal) => {
            *answer = refusal.number() as u8;
            Place { from: 0, to: 0 }
        }
    }
}

// Hands back the part itself: its lifetime is that of the rule file, and nothing is copied.
pub fn show<'a>(file: &[u8], rules: &'a [u8], n: usize, answer: &mut u8) -> &'a [u8]
    ensures { (result.now ≡ shown_part 2 file.now rules.now n)
        × (answer.new ≡ shown_byte 2 file.now rules.now n) }
{
    let place = tell(locate(file, rules, n), answer);
    &rules[place.from..place.to]
}
