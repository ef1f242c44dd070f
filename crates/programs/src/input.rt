// Files, read into lent memory.
ghost use Rattle.std.specs.Prelude.{◌≤◌, ◌≡◌, length, IfOk, IfErr, IfSome};

use crate::argument::{argument_count, complain_of, fail_long};
use crate::name::text_of;
use crate::print::{complain, fail, refuse};
use std::fs::File;
use std::io::{Read, Result};
use std::rt::Env;

// Reads what is open until it ends or fills what is lent. An error is that of the reader; what was read before it stands in what is lent.
pub fn read_open<R: Read>(from: &mut R, into: &mut [u8]) -> Result<usize>
    ensures ok { IfOk result (λ n. n ≤ length into.new) }
    ensures err { IfErr result (λ e. length into.new ≡ length into.old) }
{
    let mut at: usize = 0;
    // no walk over the pieces: a read hands over as many bytes as it likes
    while at < into.len() {
        let more = from.read(&mut into[at..])?;
        if more == 0 {
            break;
        }
        at += more;
    }
    Ok(at)
}

// Opens the file of this name and reads it.
fn read_text(rt: &HostRuntime, name: &[u8], into: &mut [u8]) -> Result<usize>
    ensures { IfOk result (λ n. n ≤ length into.new) }
{
    let mut file = File::open(rt, text_of(name)?)?;
    read_open(&mut file, into)
}

// Reads the file of this name, and answers its length. Where the system does not open or read it, a line on standard error says so, and there
// is none.
fn read_file(rt: &HostRuntime, program: &[u8], name: &[u8], into: &mut [u8]) -> Option<usize>
    ensures { IfSome result (λ n. n ≤ length into.new) }
{
    match read_text(rt, name, into) {
        Ok(length) => Some(length),
        Err(error) => {
            fail(rt, program, name, &error);
            None
        }
    }
}

// Reads the file that argument i names.
pub fn read_named(rt: &HostRuntime, program: &[u8], i: usize, into: &mut [u8]) -> Option<usize>
    ensures { IfSome result (λ n. n ≤ length into.new) }
{
    let mut name = [0u8; 4096];
    match rt.arg(i, &mut name) {
        Ok(n) => read_file(rt, program, &name[..n], into),
        Err(_) => {
            fail_long(rt, program, i);
            None
        }
    }
}

// Memory for a role file: one byte more than one may have, so that a longer one is seen.
pub fn roles_buffer() -> [u8; 65536]
    ensures { 65536 ≡ length result }
{
    [0; 65536]
}

// Memory for a rule file. 01 sets no limit to its length, so this one is the programs' own.
pub fn rules_buffer() -> [u8; 262144]
    ensures { 262144 ≡ length result }
{
    [0; 262144]
}

// Of a rule file that fills the memory, and so may go on behind it, there is no answer; but a role file that is refused is refused
// whatever stands in the rule file.
fn refuse_long(rt: &HostRuntime, program: &[u8], i: usize, file: &[u8]) {
    match role_file::read(file) {
        Ok(_) => complain_of(
            rt,
            program,
            i,
            b"the rule file is longer than this program can hold, 262,143 bytes\n",
        ),
        Err(refusal) => refuse(rt, program, refusal),
    }
}

// Reads the rule file that argument i names, which stands beside this role file.
pub fn read_rules(
    rt: &HostRuntime,
    program: &[u8],
    i: usize,
    file: &[u8],
    into: &mut [u8],
) -> Option<usize>
    ensures { IfSome result (λ n. n ≤ length into.new) }
{
    let n = read_named(rt, program, i, into)?;
    if n < into.len() {
        return Some(n);
    }
    refuse_long(rt, program, i, file);
    None
}

// The lengths of both files.
#[derive(Clone, Copy)]
pub struct Both {
    pub roles: usize,
    pub rules: usize,
}

// Reads the role file and the rule file that the arguments name, for a program that takes these two and nothing else; for any others
// says how it is used.
pub fn read_both(
    rt: &HostRuntime,
    program: &[u8],
    usage: &[u8],
    file: &mut [u8],
    rules: &mut [u8],
) -> Option<Both>
    ensures { IfSome result (λ b. (b.roles ≤ length file.new) × (b.rules ≤ length rules.new)) }
{
    if argument_count(rt) != 3 {
        complain(rt, usage);
        return None;
    }
    let roles = read_named(rt, program, 1, file)?;
    let rules = read_rules(rt, program, 2, &file[..roles], rules)?;
    Some(Both { roles, rules })
}
