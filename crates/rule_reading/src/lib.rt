// What reading a rule file comes to, and one turn of it: the next line met, or the rule closed.
#![tactic(auto)]

ghost use Rattle.std.specs.Prelude.{◌≡◌};
ghost use Rattle.role_record.specs.Record.{WithinLimits, FewAttributes, sizes_of};
ghost use Rattle.rule_reading.specs.Turns.{closes_rule, closing_turn, line_turn, turn_of};

use files::{Refusal, rule_byte};
use role_record::{ByRole, RoleFile};
use rule_commands::{Raw, RuleCommand};
use rule_notes::Tally;

// Both files read: the record of the role file, how many rules there are, the first rule that grants other than its parts, and by role the
// lowest operations of the parts that the rules list, once or more and more than once. What the rules grant together stands in a grid that
// the caller lends.
#[derive(Clone, Copy)]
pub struct BothFiles {
    pub file: RoleFile,
    pub rules: usize,
    pub stray: Option<usize>,
    pub seen: ByRole,
    pub again: ByRole,
}

// Whether a command closes the open rule.
fn closes(byte: usize) -> bool
    ensures { result ≡ closes_rule byte }
{
    byte == rule_byte::OPENS || byte == rule_byte::ENDS
}

// What the command in front of the bytes that are left comes to: a new rule, and how many bytes its 21 takes; the end; or a legal line of
// the open rule, as a command, as it stands there, and how many bytes it takes.
#[derive(Clone, Copy)]
pub enum Turn {
    Opens(usize),
    Ends,
    Line(RuleCommand, Raw, usize),
}

// A 21 or 2F that takes w of the bytes that are left.
fn closing_turn(k: Tally, byte: usize, w: usize, left: usize) -> Result<Turn, Refusal>
    ensures { result ≡ closing_turn k byte w left }
{
    if !rule_steps::may_close(k) {
        return Err(Refusal::RulesOrder);
    }
    if byte == rule_byte::OPENS {
        return Ok(Turn::Opens(w));
    }
    if w != left {
        return Err(Refusal::RulesOrder);
    }
    Ok(Turn::Ends)
}

// Another line, where it may stand: its command, if its operands are legal; if it is a 29, with the right level or not.
fn line_turn(
    checked: Option<RuleCommand>,
    levelled: bool,
    line: Raw,
    w: usize,
) -> Result<Turn, Refusal>
    ensures { result ≡ line_turn checked levelled line w }
{
    let Some(c) = checked else {
        return Err(Refusal::RulesOperand);
    };
    if levelled {
        return Ok(Turn::Line(c, line, w));
    }
    Err(Refusal::WrongLevel)
}

pub fn next_turn(k: Tally, rest: &[u8], f: &RoleFile) -> Result<Turn, Refusal>
    requires { WithinLimits (sizes_of f.now) × FewAttributes f.now.attributes }
    ensures { result ≡ turn_of k rest.now f.now }
{
    let (line, w) = rule_commands::next(rest)?;
    if closes(line.byte) {
        return closing_turn(k, line.byte, w, rest.len());
    }
    if !rule_steps::follows(k, line) {
        return Err(Refusal::RulesOrder);
    }
    let checked = rule_operands::check(line, f);
    line_turn(checked, rule_steps::levelled(k, line), line, w)
}
