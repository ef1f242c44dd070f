// Counts denials in a usage log: denials ROLES RULES LOG WINDOW prints how many of any WINDOW neighbouring records the rules deny at most, and
// the lowest record from which so many are; or the line of a refusal. Where the system does not read a file, a line on standard error says
// so and nothing is counted.
#![tactic(auto)]

ghost use Rattle.std.specs.Prelude.{length, ◌≡◌};

use log_windows::Worst;
use programs::say_count;
use std::io;

fn usage(rt: &HostRuntime) {
    programs::complain(
        rt,
        b"usage: denials ROLES RULES LOG WINDOW, the last a number from 1 to 64\n",
    );
}

// Memory for a log. 02 sets no limit to its length, so this one is the program's own: a million records and some.
fn log_buffer() -> [u8; 3145728]
    ensures { 3145728 ≡ length result }
{
    [0; 3145728]
}

// Prints how many records are denied at most, and where.
fn say_worst(rt: &impl Print, worst: Worst) -> io::Result<()> {
    say_count(rt, b"most ", worst.most)?;
    say_count(rt, b" start ", worst.start)
}

// Counts, and prints the answer.
fn answer(rt: &HostRuntime, file: &[u8], rules: &[u8], log: &[u8], window: usize) {
    match log_denials::denials(file, rules, log, window) {
        Ok(worst) => programs::end_line(rt, b"denials", say_worst(rt, worst)),
        Err(refusal) => programs::refuse(rt, b"denials", refusal),
    }
}

// Of a log that fills the memory, and so may go on behind it, there is no answer; but what is refused before the log is looked at is refused
// whatever stands in it.
fn refuse_long(rt: &HostRuntime, file: &[u8], rules: &[u8], window: usize) {
    match log_denials::denials(file, rules, b"", window) {
        Ok(_) => programs::complain_of(
            rt,
            b"denials",
            3,
            b"the log is longer than this program can hold, 3,145,727 bytes\n",
        ),
        Err(refusal) => programs::refuse(rt, b"denials", refusal),
    }
}

// Reads the log, and counts.
fn count(rt: &HostRuntime, file: &[u8], rules: &[u8], window: usize) {
    let mut log = log_buffer();
    let Some(n) = programs::read_named(rt, b"denials", 3, &mut log) else {
        return;
    };
    if n == log.len() {
        refuse_long(rt, file, rules, window);
        return;
    }
    answer(rt, file, rules, &log[..n], window);
}

// Reads the role file and the rule file.
fn count_files(rt: &HostRuntime, window: usize) {
    let mut file = programs::roles_buffer();
    let Some(k) = programs::read_named(rt, b"denials", 1, &mut file) else {
        return;
    };
    let mut rules = programs::rules_buffer();
    let Some(m) = programs::read_rules(rt, b"denials", 2, &file[..k], &mut rules) else {
        return;
    };
    count(rt, &file[..k], &rules[..m], window);
}

fn main(rt: HostRuntime) {
    if programs::argument_count(&rt) != 5 {
        usage(&rt);
        return;
    }
    match programs::number_named(
        &rt,
        b"denials",
        4,
        digits::MANY,
        b"WINDOW is no number of up to 4,096 digits\n",
    ) {
        Some(window) => count_files(&rt, window),
        None => usage(&rt),
    }
}
