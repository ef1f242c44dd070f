// A line of a rule noted, and met by members.
#![tactic(auto)]

ghost use Rattle.std.specs.Prelude.{◌≡◌, ◌+◌, ◌<◌};
ghost use Rattle.rule_notes.specs.LineSteps.{place_by, pair_number, atom_number, noted_with, met_after};
ghost use Rattle.role_record.specs.Record.{WithinLimits, sizes_of};
ghost use Rattle.rule_commands.specs.Raw.{Sided};
ghost use Rattle.rule_notes.specs.LineSteps.{met_with};

use role_record::{ByPlace, RoleFile};
use rule_commands::{Atom, ListedValue, Raw, RuleCommand};

// What is kept: of the open rule the places that have values, the atoms, the operations (0 until there is a 26), whether a part is listed,
// whether its level is told, and the last line; of the rules before it how many there are, and the first stray one.
#[derive(Clone, Copy)]
pub struct Tally {
    pub inside: bool,
    pub asked: u64,
    pub atoms: u64,
    pub operations: u64,
    pub listing: bool,
    pub telling: bool,
    pub last: Raw,
    pub rules: usize,
    pub stray: Option<usize>,
}

// The place of an attribute in a summary: the six of its side, and behind them its 255.
fn place(side: usize, attribute: usize) -> usize
    requires { side < 2 }
    ensures { result ≡ place_by side attribute }
{
    if attribute < RoleFile::ATTRIBUTES {
        return RoleFile::CONJUNCTS * side + attribute;
    }
    RoleFile::CONJUNCTS * side + RoleFile::ATTRIBUTES
}

// In the place of an atom's number where there is none: no set has it.
const NO_ATOM: usize = 64;

// An atom's number among the 36. No legal atom has another.
fn pair_number(a: usize, b: usize) -> usize
    ensures { result ≡ pair_number a b }
{
    if a < RoleFile::ATTRIBUTES {
        if b < RoleFile::ATTRIBUTES {
            return RoleFile::ATTRIBUTES * a + b;
        }
    }
    NO_ATOM
}

fn atom_number(t: Atom) -> usize
    ensures { result ≡ atom_number t }
{
    match t {
        Atom::SetContainsSet(a, b)
        | Atom::SetContainsSingle(a, b)
        | Atom::SingleEqualsSingle(a, b) => pair_number(a, b),
    }
}

// What is kept after a legal command of the open rule, which stood in the file as this line.
pub fn note(k: Tally, c: RuleCommand, line: Raw) -> Tally
    requires { Sided c }
    ensures { result ≡ noted_with k c line }
{
    let mut n = k;
    n.last = line;
    match c {
        RuleCommand::Value(v) => {
            n.asked = sets::with(k.asked, place(v.side, v.attribute));
        }
        RuleCommand::Operations(m) => {
            n.operations = m;
        }
        RuleCommand::Link(t) => {
            n.atoms = sets::with(k.atoms, atom_number(t));
        }
        RuleCommand::Part { .. } => {
            n.listing = true;
        }
        RuleCommand::Level(_) => {
            n.telling = true;
        }
        _ => {}
    }
    n
}

// Those who meet a listed value join those who met one of the same attribute before.
fn meet_value(v: ListedValue, f: &RoleFile, met: &mut ByPlace)
    requires { (v.side < 2) × WithinLimits (sizes_of f.now) }
    ensures { met.new
        ≡ met_with f.now.users f.now.resources f.now.roles f.now.known f.now.values f.now.holders met.old v }
{
    let at = place(v.side, v.attribute);
    let who = rule_meeting::meeting(v, f);
    met[at] = sets::union(met[at], who);
}

// The table of who meets which attribute's values, after a legal command of the open rule.
pub fn meet_line(c: RuleCommand, f: &RoleFile, met: &mut ByPlace)
    requires { Sided c × WithinLimits (sizes_of f.now) }
    ensures { met.new
        ≡ met_after f.now.users f.now.resources f.now.roles f.now.known f.now.values f.now.holders met.old c }
{
    if let RuleCommand::Value(v) = c {
        meet_value(v, f, met);
    }
}
