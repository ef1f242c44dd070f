// Asks whether the roles, or the rules of a rule file beside them, let a user do an operation on a resource:
// ask ROLES [RULES] USER RESOURCE OPERATION prints the answer or the refusal, a line with its number and its meaning.
// Where the system does not read a file, a line on standard error says so and there is no answer.
#![tactic(auto)]

ghost use Rattle.std.specs.Prelude.{◌≤◌};

use files::Refusal;
use std::io;

fn usage(rt: &HostRuntime) {
    programs::complain(
        rt,
        b"usage: ask ROLES [RULES] USER RESOURCE OPERATION, the last three numbers from 0\n",
    );
}

// The number that argument i gives.
fn number(rt: &HostRuntime, i: usize, wrong: &[u8]) -> Option<usize> {
    programs::number_named(rt, b"ask", i, digits::MANY, wrong)
}

// The user, resource and operation that are asked about, from argument i on.
fn question(rt: &HostRuntime, i: usize) -> Option<(usize, usize, usize)>
    requires { i ≤ 3 }
{
    let user = number(rt, i, b"USER is no number of up to 4,096 digits\n")?;
    let resource = number(rt, i + 1, b"RESOURCE is no number of up to 4,096 digits\n")?;
    let operation = number(rt, i + 2, b"OPERATION is no number of up to 4,096 digits\n")?;
    Some((user, resource, operation))
}

// Prints whether it is granted, by the rules or by the roles.
fn say_granted(
    rt: &impl Print,
    by_rules: bool,
    granted: bool,
    user: usize,
    resource: usize,
    operation: usize,
) -> io::Result<()> {
    programs::say_count(rt, b"answer ", granted as usize)?;
    programs::say(rt, b": ")?;
    programs::say(rt, answer_words::reply_words(by_rules, granted))?;
    programs::say_triple(rt, user, resource, operation)
}

// Prints the answer.
fn answer(
    rt: &HostRuntime,
    by_rules: bool,
    reply: Result<bool, Refusal>,
    user: usize,
    resource: usize,
    operation: usize,
) {
    match reply {
        Ok(granted) => {
            let said = say_granted(rt, by_rules, granted, user, resource, operation);
            programs::end_line(rt, b"ask", said);
        }
        Err(refusal) => programs::refuse(rt, b"ask", refusal),
    }
}

// The rule question about a role file that was read.
fn ask_rules(rt: &HostRuntime, file: &[u8], user: usize, resource: usize, operation: usize) {
    let mut rules = programs::rules_buffer();
    let Some(n) = programs::read_rules(rt, b"ask", 2, file, &mut rules) else {
        return;
    };
    let reply = rule_question::ask(file, &rules[..n], user, resource, operation);
    answer(rt, true, reply, user, resource, operation);
}

// Reads the role file, and asks the roles or the rules.
fn ask_files(rt: &HostRuntime, by_rules: bool, user: usize, resource: usize, operation: usize) {
    let mut file = programs::roles_buffer();
    let Some(n) = programs::read_named(rt, b"ask", 1, &mut file) else {
        return;
    };
    if by_rules {
        ask_rules(rt, &file[..n], user, resource, operation);
        return;
    }
    let reply = role_question::ask(&file[..n], user, resource, operation);
    answer(rt, false, reply, user, resource, operation);
}

// Asks, if it was numbers that were asked about.
fn ask_about(rt: &HostRuntime, by_rules: bool, asked: Option<(usize, usize, usize)>) {
    match asked {
        Some((user, resource, operation)) => {
            ask_files(rt, by_rules, user, resource, operation);
        }
        None => usage(rt),
    }
}

fn main(rt: HostRuntime) {
    match programs::argument_count(&rt) {
        5 => ask_about(&rt, false, question(&rt, 2)),
        6 => ask_about(&rt, true, question(&rt, 3)),
        _ => usage(&rt),
    }
}
