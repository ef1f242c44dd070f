// Keeps a standing summary of rights: rights ROLES [+ROLE,USER | -ROLE,USER].. fills it from a role file, assigns a user
// to a role (+) or takes the assignment away (-), one edit after the other, and prints an answer for each; then, for each
// user and operation with a right, the resources. Where the system does not read the file, or an argument is no edit, a
// line on standard error says so and there is no answer.
#![tactic(auto)]

use files::Refusal;
use programs::{say, say_count};
use role_record::{Grid, RoleFile};
use std::io;

fn usage(rt: &HostRuntime) {
    programs::complain(
        rt,
        b"usage: rights ROLES [+ROLE,USER | -ROLE,USER].., numbers from 0\n",
    );
}

// An edit that an argument asks for.
#[derive(Clone, Copy)]
struct Wanted {
    gives: bool,
    role: usize,
    user: usize,
}

// ROLE,USER
fn with_numbers(gives: bool, text: &[u8]) -> Option<Wanted> {
    let comma = text.iter().position(|c| *c == b',')?;
    let role = digits::number_in(&text[..comma], digits::MANY)?;
    let user = digits::number_in(&text[comma + 1..], digits::MANY)?;
    Some(Wanted { gives, role, user })
}

// +ROLE,USER or -ROLE,USER
fn edit_in(text: &[u8]) -> Option<Wanted> {
    match text {
        [b'+', rest @ ..] => with_numbers(true, rest),
        [b'-', rest @ ..] => with_numbers(false, rest),
        _ => None,
    }
}

// The edit in argument i. One that is too long to be read whole is no edit.
fn edit_named(rt: &HostRuntime, i: usize) -> Option<Wanted> {
    let mut text = [0u8; 4096];
    let n = programs::read_argument(rt, i, &mut text);
    edit_in(&text[..n])
}

// Whether every argument behind the role file is an edit.
fn all_edits(rt: &HostRuntime, count: usize) -> bool {
    for i in 2..count {
        if edit_named(rt, i).is_none() {
            programs::complain_of(rt, b"rights", i, b"an edit is +ROLE,USER or -ROLE,USER\n");
            return false;
        }
    }
    true
}

// Argument i as it was given.
fn say_argument(rt: &HostRuntime, i: usize) -> io::Result<()> {
    let mut text = [0u8; 4096];
    let n = programs::read_argument(rt, i, &mut text);
    say(rt, &text[..n])
}

// Whether the user is assigned to the role after an edit.
fn say_assigned(rt: &impl Print, wanted: Wanted) -> io::Result<()> {
    say_count(rt, b"user ", wanted.user)?;
    if wanted.gives {
        return say_count(rt, b" is assigned to role ", wanted.role);
    }
    say_count(rt, b" is not assigned to role ", wanted.role)
}

// What the edit of argument i has come to.
fn say_edit(
    rt: &HostRuntime,
    i: usize,
    wanted: Wanted,
    edited: Result<(), Refusal>,
) -> io::Result<()> {
    say_argument(rt, i)?;
    say(rt, b": ")?;
    match edited {
        Ok(()) => say_assigned(rt, wanted)?,
        Err(refusal) => programs::say_refusal(rt, refusal)?,
    }
    say(rt, b"\n")
}

// The members of a set, in a row.
fn say_members(rt: &impl Print, members: u64) -> io::Result<()> {
    let mut between = false;
    for r in 0..RoleFile::RESOURCES {
        if sets::has(members, r) {
            say_member(rt, between, r)?;
            between = true;
        }
    }
    Ok(())
}

fn say_member(rt: &impl Print, between: bool, r: usize) -> io::Result<()> {
    if between {
        return say_count(rt, b", ", r);
    }
    say_count(rt, b" ", r)
}

// The line of a user and an operation.
fn say_word(rt: &impl Print, user: usize, operation: usize, resources: u64) -> io::Result<()> {
    say_count(rt, b"user ", user)?;
    say_count(rt, b", operation ", operation)?;
    say(rt, b": resources")?;
    say_members(rt, resources)?;
    say(rt, b"\n")
}

// The lines of all that have a right.
fn say_table(rt: &impl Print, table: &Grid) -> io::Result<()> {
    let mut some = false;
    for (i, word) in table.iter().enumerate() {
        if *word != 0 {
            say_word(
                rt,
                i / RoleFile::OPERATIONS,
                i % RoleFile::OPERATIONS,
                *word,
            )?;
            some = true;
        }
    }
    if some {
        return Ok(());
    }
    say(rt, b"no rights\n")
}

// Reads the role file, and fills the table from it.
fn standing(file: &[u8], table: &mut Grid) -> Result<RoleFile, Refusal> {
    let f = role_file::read(file)?;
    right_edits::fill(&f, table)?;
    Ok(f)
}

// One edit. Of a table whose length is in its type, so that the loop below has nothing to say of it.
fn edit(f: &mut RoleFile, table: &mut Grid, wanted: Wanted) -> Result<(), Refusal> {
    right_edits::edit(f, table, wanted.gives, wanted.role, wanted.user)
}

// Edits one after the other, and prints what comes of each, and the table.
fn say_edits(rt: &HostRuntime, loaded: RoleFile, filled: Grid, count: usize) -> io::Result<()> {
    let mut f = loaded;
    let mut table = filled;
    for i in 2..count {
        if let Some(wanted) = edit_named(rt, i) {
            let edited = edit(&mut f, &mut table, wanted);
            say_edit(rt, i, wanted, edited)?;
        }
    }
    say_table(rt, &table)
}

// Fills the table, edits and prints; or the line of a refusal.
fn answer(rt: &HostRuntime, file: &[u8], count: usize) -> io::Result<()> {
    let mut table = [0u64; right_answers::WORDS];
    match standing(file, &mut table) {
        Ok(f) => say_edits(rt, f, table, count),
        Err(refusal) => {
            programs::say_refusal(rt, refusal)?;
            say(rt, b"\n")
        }
    }
}

fn main(rt: HostRuntime) {
    let count = programs::argument_count(&rt);
    if count < 2 || !all_edits(&rt, count) {
        usage(&rt);
        return;
    }
    let mut file = programs::roles_buffer();
    if let Some(n) = programs::read_named(&rt, b"rights", 1, &mut file) {
        if let Err(error) = answer(&rt, &file[..n], count) {
            programs::fail(&rt, b"rights", b"cannot print the answer", &error);
        }
    }
}
