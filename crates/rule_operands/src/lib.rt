// Whether the operands of a rule file's command are legal beside a loaded role file, and the command that they make.
#![tactic(auto)]

ghost use Rattle.std.specs.Prelude.{◌≡◌, ◌≤◌, ◌<◌};
ghost use Rattle.role_record.specs.Record.{WithinLimits, FewAttributes, sizes_of};
ghost use Rattle.rule_operands.specs.Checked.{atom_of, checked_value, checked_operations, checked_link, checked_part, checked_of};

use files::rule_byte;
use role_record::{BySide, RoleFile};
use rule_commands::{Atom, ListedValue, Raw, RuleCommand};

// Commands 22 to 25: which of the four follows from the side and the kind.
fn check_value(side: usize, set: bool, line: Raw, f: &RoleFile) -> Option<RuleCommand>
    requires { (side < 2) × WithinLimits (sizes_of f.now) }
    ensures { result
        ≡ checked_value side set line.first line.second f.now.roles f.now.resources f.now.attributes f.now.kinds }
{
    let v = ListedValue {
        side,
        set,
        attribute: line.first as usize,
        value: line.second,
    };
    if rule_legal::value_legal(v, f) {
        return Some(RuleCommand::Value(v));
    }
    None
}

// Command 26.
fn check_operations(line: Raw, operations: usize) -> Option<RuleCommand>
    requires { operations ≤ 16 }
    ensures { result ≡ checked_operations line.first operations }
{
    if rule_legal::operations_legal(line.first, operations) {
        return Some(RuleCommand::Operations(line.first));
    }
    None
}

// The atom of two attributes of a legal line: its form follows from their kinds.
fn atom_of(a: usize, b: usize, kinds: &BySide) -> Atom
    ensures { result ≡ atom_of a b kinds.now }
{
    if sets::has(kinds[0], a) {
        if sets::has(kinds[1], b) {
            return Atom::SetContainsSet(a, b);
        }
        return Atom::SetContainsSingle(a, b);
    }
    Atom::SingleEqualsSingle(a, b)
}

// Command 27.
fn check_link(line: Raw, f: &RoleFile) -> Option<RuleCommand>
    requires { FewAttributes f.now.attributes }
    ensures { result ≡ checked_link line.first line.second f.now.attributes f.now.kinds f.now.domains }
{
    if rule_legal::link_legal(line.first, line.second, f) {
        return Some(RuleCommand::Link(atom_of(
            line.first as usize,
            line.second as usize,
            &f.kinds,
        )));
    }
    None
}

// Command 28.
fn check_part(line: Raw, f: &RoleFile) -> Option<RuleCommand>
    requires { WithinLimits (sizes_of f.now) }
    ensures { result
        ≡ checked_part line.first line.second f.now.roles f.now.operations f.now.holders f.now.permissions }
{
    if rule_legal::part_legal(line.first, line.second, f) {
        return Some(RuleCommand::Part {
            role: line.first as usize,
            operations: line.second,
        });
    }
    None
}

// The command of a line, if its operands are legal. 21 and 2F have none that could be illegal, and that of a 29 is tested against the rule,
// not against the role file.
pub fn check(line: Raw, f: &RoleFile) -> Option<RuleCommand>
    requires { WithinLimits (sizes_of f.now) × FewAttributes f.now.attributes }
    ensures { result ≡ checked_of line f.now }
{
    match line.byte {
        rule_byte::OPENS => Some(RuleCommand::Opens),
        rule_byte::USER_SINGLE => check_value(0, false, line, f),
        rule_byte::USER_SET => check_value(0, true, line, f),
        rule_byte::RESOURCE_SINGLE => check_value(1, false, line, f),
        rule_byte::RESOURCE_SET => check_value(1, true, line, f),
        rule_byte::OPERATIONS => check_operations(line, f.operations),
        rule_byte::LINK => check_link(line, f),
        rule_byte::PART => check_part(line, f),
        rule_byte::LEVEL => Some(RuleCommand::Level(line.first)),
        _ => Some(RuleCommand::Ends),
    }
}
