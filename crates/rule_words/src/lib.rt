// Rules in words. Each function but the last prints a part of an answer, or answers why it cannot, as those of `programs` do.
#![tactic(auto)]

ghost use Rattle.role_record.specs.Record.{WithinLimits, FewAttributes, sizes_of};
ghost use Rattle.std.specs.Prelude.{◌||◌, List, ◌≡◌};
ghost use Rattle.rule_headings.specs.Headings.{RuleAt};
ghost use Rattle.rule_words.specs.Telling.{is_condition, goes_on, domain_of, AcceptedRules};
ghost use Rattle.files.specs.RuleFile.{Lines};
ghost use Rattle.policy.specs.Policy.{Policy};

use files::rule_byte;
use line_words::{say_operations, tell_checked};
use programs::{say, say_count};
use role_record::{ByAttribute, RoleFile};
use rule_commands::Raw;
use rule_headings::heading_of;
use std::io;

// What parts the paragraph of a rule from the one before it, if there is one: the first that is told has this number.
fn say_gap(rt: &impl Print, first: usize, number: usize) -> io::Result<()> {
    if number == first {
        return Ok(());
    }
    say(rt, b"\n\n")
}

// The heading of the rule of this number, whose lines stand in front, if it is one that is told.
fn tell_heading(
    rt: &impl Print,
    wanted: bool,
    first: usize,
    number: usize,
    s: &[u8],
) -> io::Result<()>
    requires { (F : Policy) × (rules : List Lines) × RuleAt F rules number s.now }
{
    if !wanted {
        return Ok(());
    }
    let h = heading_of(s);
    say_gap(rt, first, number)?;
    say_count(rt, b"rule ", number)?;
    say_count(rt, b", level ", h.level as usize)?;
    say(rt, b": any user may do ")?;
    say_operations(rt, h.operations)?;
    say(rt, b" on any resource")
}

// The end of the file.
fn tell_end(rt: &impl Print, number: usize) -> io::Result<()> {
    if number == 0 {
        return say(rt, b"there is no rule: nobody may do anything");
    }
    Ok(())
}

// Whether a rule that has a condition, or has none, has one with this line.
fn has_condition(some: bool, byte: usize) -> bool
    ensures { result ≡ (is_condition byte || some) }
{
    if digits::within(byte, rule_byte::USER_SINGLE, rule_byte::RESOURCE_SET) {
        return true;
    }
    if byte == rule_byte::LINK {
        return true;
    }
    some
}

// Whether a line gives a further value of the conjunct that the line before it, if there is one, gives one of.
fn goes_on(line: Raw, former: Option<Raw>) -> bool
    ensures { result ≡ goes_on line former }
{
    let Some(before) = former else {
        return false;
    };
    if !digits::within(line.byte, rule_byte::USER_SINGLE, rule_byte::RESOURCE_SET) {
        return false;
    }
    if line.byte != before.byte {
        return false;
    }
    line.first == before.first
}

// The domain of a user attribute; 0 where there is no such attribute, as in lines that name none.
fn domain_of(domains: &ByAttribute, attribute: u64) -> u64
    ensures { result ≡ domain_of domains.now attribute }
{
    let a = attribute as usize;
    if a < RoleFile::ATTRIBUTES {
        return domains[a];
    }
    0
}

// A paragraph for each rule of a legal rule file that has one of the numbers from the first to the last; its last line is left open.
fn tell_rules(
    rt: &impl Print,
    rules: &[u8],
    first: usize,
    last: usize,
    f: &RoleFile,
) -> io::Result<()>
    requires { WithinLimits (sizes_of f.now) × FewAttributes f.now.attributes × AcceptedRules rules.now }
{
    let mut number: usize = 0;
    let mut wanted = false;
    let mut some = false;
    let mut former: Option<Raw> = None;
    let mut rest = rules;
    while let Ok((line, w)) = rule_commands::next(rest) {
        rest = &rest[w..];
        if line.byte == rule_byte::OPENS {
            wanted = digits::within(number, first, last);
            tell_heading(rt, wanted, first, number, rest)?;
            number += 1;
            some = false;
        } else {
            let same = goes_on(line, former);
            let checked = rule_operands::check(line, f);
            let domain = domain_of(&f.domains, line.first);
            tell_checked(rt, wanted, same, some, checked, domain)?;
            some = has_condition(some, line.byte);
        }
        former = Some(line);
    }
    tell_end(rt, number)
}

// Reads both files and tells the rules of these numbers, or prints the line of a refusal, for the program of this name.
pub fn tell_files(
    rt: &HostRuntime,
    program: &[u8],
    file: &[u8],
    rules: &[u8],
    first: usize,
    last: usize,
) {
    match rule_file::read(file, rules) {
        Ok(both) => {
            let told = tell_rules(rt, &rules[rule_opening::BYTES..], first, last, &both.file);
            programs::end_line(rt, program, told);
        }
        Err(refusal) => programs::refuse(rt, program, refusal),
    }
}
