// Shows one rule of a rule file: show ROLES RULES NUMBER prints its bytes, as they stand in the file, and what explain has to say of it;
// or the line of a refusal. Where the system does not read a file, a line on standard error says so and nothing is shown.
#![tactic(auto)]

use programs::say;
use std::io;

fn usage(rt: &HostRuntime) {
    programs::complain(
        rt,
        b"usage: show ROLES RULES NUMBER, the last a number from 0\n",
    );
}

// A byte by its two digits.
fn say_byte(rt: &impl Print, b: u8) -> io::Result<()> {
    say(rt, &[digits::hex_digit(b / 16), digits::hex_digit(b % 16)])
}

// What stands between two bytes, and not before the first.
fn say_blank(rt: &impl Print, at: usize) -> io::Result<()> {
    if at == 0 {
        return Ok(());
    }
    say(rt, b" ")
}

// A line of bytes.
fn say_bytes(rt: &impl Print, bytes: &[u8]) -> io::Result<()> {
    for (at, byte) in bytes.iter().enumerate() {
        say_blank(rt, at)?;
        say_byte(rt, *byte)?;
    }
    say(rt, b"\n")
}

// The rule's bytes, and behind them its words.
fn show(rt: &HostRuntime, file: &[u8], rules: &[u8], n: usize) {
    let mut answer: u8 = 0;
    let part = rule_show::show(file, rules, n, &mut answer);
    match answer_words::refusal_of(answer as usize) {
        None => match say_bytes(rt, part) {
            Ok(()) => rule_words::tell_files(rt, b"show", file, rules, n, n),
            Err(error) => programs::end_line(rt, b"show", Err(error)),
        },
        Some(refusal) => programs::refuse(rt, b"show", refusal),
    }
}

// Reads both files, and shows the rule.
fn show_files(rt: &HostRuntime, n: usize) {
    let mut file = programs::roles_buffer();
    let Some(k) = programs::read_named(rt, b"show", 1, &mut file) else {
        return;
    };
    let mut rules = programs::rules_buffer();
    let Some(m) = programs::read_rules(rt, b"show", 2, &file[..k], &mut rules) else {
        return;
    };
    show(rt, &file[..k], &rules[..m], n);
}

fn main(rt: HostRuntime) {
    if programs::argument_count(&rt) != 4 {
        usage(&rt);
        return;
    }
    match programs::number_named(
        &rt,
        b"show",
        3,
        digits::MANY,
        b"NUMBER is no number of up to 4,096 digits\n",
    ) {
        Some(n) => show_files(&rt, n),
        None => usage(&rt),
    }
}
