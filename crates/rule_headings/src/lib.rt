// What a rule's heading says of its lines, which stand one after the other in a rule file.
#![tactic(auto)]

ghost use Rattle.std.specs.Prelude.{List, [], ◌≡◌, ℕ, get_or};
ghost use Rattle.files.specs.RuleFile.{Lines, rule_in};
ghost use Rattle.policy.specs.Policy.{Policy, setting_of};
ghost use Rattle.policy.specs.Rules.{rule_level};
ghost use Rattle.rule_headings.specs.Headings.{in_rule, noted, heading_of, RuleAt};

use files::rule_byte;
use rule_commands::Raw;

// What the heading of a rule says of it.
#[derive(Clone, Copy)]
pub struct Heading {
    pub operations: u64,
    pub level: u64,
}

// Whether a command stands inside a rule.
fn in_rule(byte: usize) -> bool
    ensures { result ≡ in_rule byte }
{
    digits::within(byte, rule_byte::USER_SINGLE, rule_byte::LEVEL)
}

// The heading with one line more: a 26 says the operations, a 29 the level.
fn note(h: Heading, line: Raw) -> Heading
    ensures { result ≡ noted h line }
{
    if line.byte == rule_byte::OPERATIONS {
        return Heading {
            operations: line.first,
            ..h
        };
    }
    if line.byte == rule_byte::LEVEL {
        return Heading {
            level: line.first,
            ..h
        };
    }
    h
}

// The heading of the rule whose lines stand in front. If they are those of a rule of a rule file that was accepted, its level is that rule's.
pub fn heading_of(s: &[u8]) -> Heading
    ensures { (result ≡ heading_of s.now)
        × ((F : Policy) (rules : List Lines) (n : ℕ)
        → RuleAt F rules n s.now
        → result.level ≡ rule_level (setting_of F) (rule_in (setting_of F) (get_or rules n []))) }
{
    let mut h = Heading {
        operations: 0,
        level: 0,
    };
    let mut rest = s;
    while let Ok((line, w)) = rule_commands::next(rest) {
        if !in_rule(line.byte) {
            break;
        }
        h = note(h, line);
        rest = &rest[w..];
    }
    h
}
