// Lines of words and numbers. An answer goes to standard output: each function that begins with `say` prints a part of one, or answers why it
// cannot, and with `?` nothing is printed behind a failure. Everything else goes to standard error, behind the name of the program; where that
// cannot be written, there is no place left to say so.
use answer_words::refusal_words;
use files::Refusal;
use std::io::{Cursor, Error, Result, Write};
use std::str;

pub fn say(rt: &impl Print, text: &[u8]) -> Result<()> {
    Print::write_all(rt, text)
}

pub fn say_number(rt: &impl Print, n: usize) -> Result<()> {
    rt.print(n)
}

// A name and a number behind it.
pub fn say_count(rt: &impl Print, name: &[u8], n: usize) -> Result<()> {
    say(rt, name)?;
    say_number(rt, n)
}

// A user, a resource and an operation.
pub fn say_triple(rt: &impl Print, user: usize, resource: usize, operation: usize) -> Result<()> {
    say_count(rt, b"user ", user)?;
    say_count(rt, b", resource ", resource)?;
    say_count(rt, b", operation ", operation)
}

// Ends the line of what was printed.
fn ended(rt: &impl Print, printed: Result<()>) -> Result<()> {
    printed?;
    say(rt, b"\n")
}

// Ends the line. Where not all was printed, a line on standard error says so.
pub fn end_line(rt: &HostRuntime, program: &[u8], printed: Result<()>) {
    if let Err(error) = ended(rt, printed) {
        fail(rt, program, b"cannot print the answer", &error);
    }
}

// A refusal, its number and its meaning.
pub fn say_refusal(rt: &impl Print, refusal: Refusal) -> Result<()> {
    say_count(rt, b"refused ", refusal.number())?;
    say(rt, b": ")?;
    say(rt, refusal_words(refusal.number()))
}

// The line of a refusal.
pub fn refuse(rt: &HostRuntime, program: &[u8], refusal: Refusal) {
    end_line(rt, program, say_refusal(rt, refusal));
}

// A text on standard error.
pub fn complain(rt: &HostRuntime, text: &[u8]) {
    let _ = Print::write_all(&rt.stderr(), text);
}

// The start of a line on standard error: who complains.
pub fn name_program(rt: &HostRuntime, program: &[u8]) {
    complain(rt, program);
    complain(rt, b": ");
}

// The meaning of a refusal, for a program whose line of a refusal has the number alone.
pub fn complain_refused(rt: &HostRuntime, program: &[u8], refusal: Refusal) {
    name_program(rt, program);
    complain(rt, refusal_words(refusal.number()));
    complain(rt, b"\n");
}

// The system's words in an error's text, which has their number in brackets behind them.
fn without_number(text: &str) -> &str {
    match text.split_once(" (os error ") {
        Some((words, _)) => words,
        None => text,
    }
}

// The words for an error.
fn complain_error(rt: &HostRuntime, error: &Error) {
    let mut text = [0u8; 160];
    let mut held = Cursor::new(text.as_mut_slice());
    let _ = write!(held, "{error}");
    let n = (held.position() as usize).min(text.len());
    match str::from_utf8(&text[..n]) {
        Ok(all) => complain(rt, without_number(all).as_bytes()),
        Err(_) => complain(rt, &text[..n]),
    }
}

// What failed, behind what stands in the line so far, and the words for it, which end the line.
pub fn complain_failed(rt: &HostRuntime, what: &[u8], error: &Error) {
    complain(rt, what);
    complain(rt, b": ");
    complain_error(rt, error);
    complain(rt, b"\n");
}

// What failed, and the system's words for it.
pub fn fail(rt: &HostRuntime, program: &[u8], what: &[u8], error: &Error) {
    name_program(rt, program);
    complain_failed(rt, what, error);
}
