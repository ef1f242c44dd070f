// Shows the fewest roles that make a circle of seniority: circle ROLES prints them in order and which role is junior to which, or that
// there is no circle, or the line of a refusal. Where the system does not read the file, a line on standard error says so and there is no
// answer.
#![tactic(auto)]

ghost use Rattle.std.specs.Prelude.{◌<◌, length};

use programs::{say, say_count};
use role_record::RoleFile;
use std::io;

// The roles, from the lowest on.
fn say_roles(rt: &impl Print, roles: &[u8]) -> io::Result<()> {
    say(rt, b"circle")?;
    for role in roles {
        say_count(rt, b" ", *role as usize)?;
    }
    Ok(())
}

// The role behind the one at a place: behind the last stands the first.
fn senior(roles: &[u8], at: usize) -> u8
    requires { at < length roles.now }
{
    if at + 1 < roles.len() {
        return roles[at + 1];
    }
    roles[0]
}

// One line of seniority.
fn say_line(rt: &impl Print, at: usize, junior: u8, senior: u8) -> io::Result<()> {
    if at == 0 {
        say_count(rt, b": role ", junior as usize)?;
        return say_count(rt, b" is junior to ", senior as usize);
    }
    say_count(rt, b", ", junior as usize)?;
    say_count(rt, b" to ", senior as usize)
}

// The lines that make the circle.
fn say_lines(rt: &impl Print, roles: &[u8]) -> io::Result<()> {
    for (at, junior) in roles.iter().enumerate() {
        say_line(rt, at, *junior, senior(roles, at))?;
    }
    Ok(())
}

// The circle, if there is one.
fn say_circle(rt: &impl Print, roles: &[u8]) -> io::Result<()> {
    if roles.is_empty() {
        return say(rt, b"no circle");
    }
    say_roles(rt, roles)?;
    say_lines(rt, roles)
}

// Looks for the circle, and prints the answer.
fn answer(rt: &HostRuntime, file: &[u8]) {
    let mut roles = [0u8; RoleFile::ROLES];
    match role_circle::circle(file, &mut roles) {
        Ok(n) => programs::end_line(rt, b"circle", say_circle(rt, &roles[..n])),
        Err(refusal) => programs::refuse(rt, b"circle", refusal),
    }
}

fn main(rt: HostRuntime) {
    if programs::argument_count(&rt) != 2 {
        programs::complain(&rt, b"usage: circle ROLES\n");
        return;
    }
    let mut file = programs::roles_buffer();
    if let Some(n) = programs::read_named(&rt, b"circle", 1, &mut file) {
        answer(&rt, &file[..n]);
    }
}
