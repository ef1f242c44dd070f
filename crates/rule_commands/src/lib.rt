// The commands of a rule file, taken from the front of its bytes.
#![tactic(auto)]

ghost use Rattle.std.specs.Prelude.{◌≡◌, ◌≤◌, [], ◌∷◌};
ghost use Rattle.rule_commands.specs.Raw.{taken_by, raw_of, raw_before};

use files::{Refusal, rule_byte};

// An atom by the kinds of its two attributes: the user attribute, the resource attribute.
#[derive(Clone, Copy)]
pub enum Atom {
    SetContainsSet(usize, usize),
    SetContainsSingle(usize, usize),
    SingleEqualsSingle(usize, usize),
}

// A value that a rule lists for a conjunct, of a user's attribute (side 0) or a resource's (side 1): a set or a single value.
#[derive(Clone, Copy)]
pub struct ListedValue {
    pub side: usize,
    pub set: bool,
    pub attribute: usize,
    pub value: u64,
}

#[derive(Clone, Copy)]
pub enum RuleCommand {
    Opens,
    Value(ListedValue),
    Operations(u64),
    Link(Atom),
    Part { role: usize, operations: u64 },
    Level(u64),
    Ends,
}

// A line as it stands in the file: its command byte and its first and second operand, 0 where there is none. The command itself is not made
// here: which atom a 27 is depends on the kinds of its attributes, and the order of lines is that of these numbers.
#[derive(Clone, Copy, PartialEq, Eq, PartialOrd, Ord)]
pub struct Raw {
    pub byte: usize,
    pub first: u64,
    pub second: u64,
}

// The line of this byte with two operands of so many bytes, behind which stand further ones that are not looked at; and how many bytes it
// takes.
fn taken<const FIRST: usize, const SECOND: usize>(
    s: &[u8],
    byte: usize,
    further: usize,
) -> Result<(Raw, usize), Refusal>
    requires { (FIRST ≤ 7) × (SECOND ≤ 8) × (further ≤ 4) }
    ensures { result ≡ taken_by (FIRST ∷ SECOND ∷ further ∷ []) byte s.now }
{
    let width = 1 + FIRST + SECOND + further;
    if s.len() < width {
        return Err(Refusal::RulesCutOff);
    }
    let first = file_bytes::number::<FIRST>(s, 1);
    let second = file_bytes::number::<SECOND>(s, 1 + FIRST);
    Ok((
        Raw {
            byte,
            first,
            second,
        },
        width,
    ))
}

// The line at the front of the bytes, and how many of them it takes; refused where its command is unknown, or where there is less than one.
pub fn next(s: &[u8]) -> Result<(Raw, usize), Refusal>
    ensures { result ≡ raw_of s.now }
{
    if s.is_empty() {
        return Err(Refusal::RulesCutOff);
    }
    let b = file_bytes::byte_at(s, 0);
    match b {
        rule_byte::OPENS | rule_byte::ENDS => taken::<0, 0>(s, b, 0),
        rule_byte::USER_SINGLE | rule_byte::RESOURCE_SINGLE | rule_byte::PART => taken::<1, 2>(
            s, b, 0,
        ),
        rule_byte::USER_SET | rule_byte::RESOURCE_SET => taken::<1, 8>(s, b, 0),
        rule_byte::OPERATIONS => taken::<2, 0>(s, b, 0),
        rule_byte::LINK => taken::<1, 1>(s, b, 0),
        rule_byte::SHAPE => taken::<1, 1>(s, b, 4),
        rule_byte::LEVEL => taken::<1, 0>(s, b, 0),
        _ => Err(Refusal::RulesUnknown),
    }
}

// Whether one line stands before another: the first number that differs decides.
pub fn before(a: Raw, b: Raw) -> bool
    ensures { result ≡ raw_before a b }
{
    a < b
}
