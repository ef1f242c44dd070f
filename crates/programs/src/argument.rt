// The arguments, and how one is named on standard error.
ghost use Rattle.std.specs.Prelude.{◌≤◌, length};

use crate::print::{complain, fail, name_program};
use std::env::FillError;
use std::io::Error;
use std::rt::Env;

// The system's number for a name that is too long.
const NAME_TOO_LONG: i32 = 36;

fn is_given(rt: &HostRuntime, i: usize) -> bool {
    !matches!(rt.arg(i, &mut [0u8; 1]), Err(FillError::NotPresent))
}

// How many arguments there are, the program's name among them.
pub fn argument_count(rt: &HostRuntime) -> usize {
    for i in 0..usize::MAX {
        if !is_given(rt, i) {
            return i;
        }
    }
    usize::MAX
}

// Puts argument i at the start of text, and answers its length: 0 where there is none, or one that is longer than text.
pub fn read_argument(rt: &HostRuntime, i: usize, text: &mut [u8]) -> usize
    ensures { result ≤ length text.new }
{
    rt.arg(i, text).unwrap_or(0)
}

// The first bytes of argument i, for one that is too long to be read whole.
fn first_bytes(rt: &HostRuntime, i: usize) -> [u8; 40] {
    let mut first = [0u8; 40];
    read_argument(rt, i, &mut first);
    first
}

// Shows argument i.
fn show(rt: &HostRuntime, i: usize) {
    let mut text = [0u8; 4096];
    match rt.arg(i, &mut text) {
        Ok(n) => complain(rt, &text[..n]),
        Err(_) => complain(rt, &first_bytes(rt, i)),
    }
}

// A line on standard error: the program, argument i, and what is wrong with it, which ends the line.
pub fn complain_of(rt: &HostRuntime, program: &[u8], i: usize, wrong: &[u8]) {
    name_program(rt, program);
    show(rt, i);
    complain(rt, b": ");
    complain(rt, wrong);
}

// The same for an argument that is too long to be the name of a file, in the system's words.
pub fn fail_long(rt: &HostRuntime, program: &[u8], i: usize) {
    let error = Error::from_raw_os_error(NAME_TOO_LONG);
    fail(rt, program, &first_bytes(rt, i), &error);
}
