// A line of a rule in words. Each function prints a part of an answer, or answers why it cannot, as those of `programs` do.
#![tactic(auto)]

use files::rule_byte;
use programs::{say, say_count, say_number};
use rule_commands::{Atom, ListedValue, RuleCommand};
use std::io;

// ---- sets

// What stands between two elements, and not before the first.
fn say_comma(rt: &impl Print, some: bool) -> io::Result<()> {
    if some {
        return say(rt, b", ");
    }
    Ok(())
}

// The elements of a set, with commas between them.
fn say_elements(rt: &impl Print, set: u64) -> io::Result<()> {
    let mut some = false;
    for i in 0..64usize {
        if sets::has(set, i) {
            say_comma(rt, some)?;
            say_number(rt, i)?;
            some = true;
        }
    }
    Ok(())
}

// A text, and a set in braces behind it.
fn say_set(rt: &impl Print, text: &[u8], set: u64) -> io::Result<()> {
    say(rt, text)?;
    say(rt, b"{")?;
    say_elements(rt, set)?;
    say(rt, b"}")
}

// Operations: one, or several.
pub fn say_operations(rt: &impl Print, operations: u64) -> io::Result<()> {
    if sets::count(operations) == 1 {
        say(rt, b"operation ")?;
        return say_elements(rt, operations);
    }
    say(rt, b"operations ")?;
    say_elements(rt, operations)
}

// ---- conditions

// What begins a condition: the first of a rule, or one more.
fn say_if(rt: &impl Print, some: bool) -> io::Result<()> {
    if some {
        return say(rt, b"\n  and ");
    }
    say(rt, b"\n  if ")
}

// What a conjunct is about and what it asks of it; before a further value of the same conjunct, only that.
fn say_conjunct(
    rt: &impl Print,
    same: bool,
    some: bool,
    about: &[u8],
    attribute: usize,
    asks: &[u8],
) -> io::Result<()> {
    if same {
        return say(rt, b" or ");
    }
    say_if(rt, some)?;
    say_count(rt, about, attribute)?;
    say(rt, asks)
}

// The same for a 255, which has no number of its own to be told.
fn say_own(rt: &impl Print, same: bool, some: bool, about: &[u8]) -> io::Result<()> {
    if same {
        return say(rt, b" or ");
    }
    say_if(rt, some)?;
    say(rt, about)
}

// What the empty set asks of a user: every value contains it, and an unknown one is none.
fn say_empty(rt: &impl Print, set: u64) -> io::Result<()> {
    if set == 0 {
        return say(rt, b" (any value that is known)");
    }
    Ok(())
}

fn tell_user_set(
    rt: &impl Print,
    same: bool,
    some: bool,
    attribute: usize,
    set: u64,
) -> io::Result<()> {
    if attribute == rule_byte::OWN {
        say_own(rt, same, some, b"the user holds ")?;
        return say_set(rt, b"all of the roles ", set);
    }
    say_conjunct(
        rt,
        same,
        some,
        b"the user's attribute ",
        attribute,
        b" contains ",
    )?;
    say_set(rt, b"all of ", set)?;
    say_empty(rt, set)
}

fn tell_resource_single(
    rt: &impl Print,
    same: bool,
    some: bool,
    attribute: usize,
    value: u64,
) -> io::Result<()> {
    if attribute == rule_byte::OWN {
        say_own(rt, same, some, b"the resource is ")?;
        return say_count(rt, b"number ", value as usize);
    }
    say_conjunct(
        rt,
        same,
        some,
        b"the resource's attribute ",
        attribute,
        b" is ",
    )?;
    say_number(rt, value as usize)
}

fn tell_user_single(
    rt: &impl Print,
    same: bool,
    some: bool,
    attribute: usize,
    value: u64,
) -> io::Result<()> {
    say_conjunct(rt, same, some, b"the user's attribute ", attribute, b" is ")?;
    say_number(rt, value as usize)
}

fn tell_resource_set(
    rt: &impl Print,
    same: bool,
    some: bool,
    attribute: usize,
    set: u64,
) -> io::Result<()> {
    say_conjunct(
        rt,
        same,
        some,
        b"the resource's attribute ",
        attribute,
        b" is ",
    )?;
    say_set(rt, b"exactly ", set)
}

// A listed value, by its side and its kind.
fn tell_value(rt: &impl Print, same: bool, some: bool, v: ListedValue) -> io::Result<()> {
    if v.side == 0 {
        if v.set {
            return tell_user_set(rt, same, some, v.attribute, v.value);
        }
        return tell_user_single(rt, same, some, v.attribute, v.value);
    }
    if v.set {
        return tell_resource_set(rt, same, some, v.attribute, v.value);
    }
    tell_resource_single(rt, same, some, v.attribute, v.value)
}

// An atom: what the user's attribute has to do with the resource's.
fn say_link(
    rt: &impl Print,
    some: bool,
    user: usize,
    asks: &[u8],
    resource: usize,
) -> io::Result<()> {
    say_if(rt, some)?;
    say_count(rt, b"the user's attribute ", user)?;
    say(rt, asks)?;
    say_count(rt, b"the resource's attribute ", resource)
}

fn say_atom(rt: &impl Print, some: bool, atom: Atom) -> io::Result<()> {
    match atom {
        Atom::SetContainsSet(user, resource) => {
            say_link(rt, some, user, b" contains all of ", resource)
        }
        Atom::SetContainsSingle(user, resource) => {
            say_link(rt, some, user, b" contains ", resource)
        }
        Atom::SingleEqualsSingle(user, resource) => {
            say_link(rt, some, user, b" equals ", resource)
        }
    }
}

// An atom, and the domain of both its attributes.
fn tell_link(rt: &impl Print, some: bool, atom: Atom, domain: u64) -> io::Result<()> {
    say_atom(rt, some, atom)?;
    say_count(rt, b", both of domain ", domain as usize)
}

// ---- lines

// A part that the rule stands for.
fn tell_part(rt: &impl Print, role: usize, operations: u64) -> io::Result<()> {
    say_count(rt, b"\n  in place of role ", role)?;
    say(rt, b" for ")?;
    say_operations(rt, operations)
}

// A line inside a rule, with the domain of the attribute that it names, if it names one. The operations and the level stand in
// the heading.
fn tell_line(
    rt: &impl Print,
    same: bool,
    some: bool,
    c: RuleCommand,
    domain: u64,
) -> io::Result<()> {
    match c {
        RuleCommand::Value(v) => tell_value(rt, same, some, v),
        RuleCommand::Link(atom) => tell_link(rt, some, atom, domain),
        RuleCommand::Part { role, operations } => tell_part(rt, role, operations),
        RuleCommand::Opens
        | RuleCommand::Operations(_)
        | RuleCommand::Level(_)
        | RuleCommand::Ends => Ok(()),
    }
}

// The same of a line of numbers, if its rule is one that is told. In a legal rule file no line is illegal.
pub fn tell_checked(
    rt: &impl Print,
    wanted: bool,
    same: bool,
    some: bool,
    checked: Option<RuleCommand>,
    domain: u64,
) -> io::Result<()> {
    if !wanted {
        return Ok(());
    }
    match checked {
        Some(c) => tell_line(rt, same, some, c, domain),
        None => Ok(()),
    }
}
