// What the test programs share: what they print, how they fill memory that is lent, and a role file as long as one may be.
#![tactic(auto)]

ghost use Rattle.std.specs.Prelude.{◌≡◌, ◌≤◌, length};

use files::{Refusal, role_byte};
use role_record::RoleFile;
use std::io;

// One byte more than a role file may have.
pub const BYTES: usize = RoleFile::BYTES + 1;

// How many assignments of three bytes there is room for, between the sizes, of five bytes, and three permissions of four bytes and the end.
const ASSIGNMENTS: usize = (RoleFile::BYTES - 18) / 3;

const FIRST_PERMISSION: usize = 5 + 3 * ASSIGNMENTS;

const SECOND_PERMISSION: usize = FIRST_PERMISSION + 4;

const THIRD_PERMISSION: usize = SECOND_PERMISSION + 4;

const LAST: usize = THIRD_PERMISSION + 4;

const SIZES: u8 = role_byte::SIZES as u8;

const ASSIGN: u8 = role_byte::ASSIGN as u8;

const PERMIT: u8 = role_byte::PERMIT as u8;

const END: u8 = role_byte::END as u8;

// Prints a word with the spaces around it, and a number.
pub fn print_number(rt: &impl Print, name: &[u8], n: usize) -> io::Result<()> {
    programs::say_count(rt, name, n)
}

// Prints the number of a refusal.
pub fn print_refusal(rt: &impl Print, refusal: Refusal) -> io::Result<()> {
    print_number(rt, b"refused ", refusal.number())
}

// Prints the reply and ends the line.
pub fn print_reply(rt: &impl Print, reply: Result<bool, Refusal>) -> io::Result<()> {
    match reply {
        Ok(true) => programs::say(rt, b"yes\n"),
        Ok(false) => programs::say(rt, b"no\n"),
        Err(refusal) => {
            print_refusal(rt, refusal)?;
            programs::say(rt, b"\n")
        }
    }
}

// A legal role file as long as one may be, with a zero behind it: one user, resource, operation and role; the user's assignment, over
// and over; the permission three times; the end.
pub fn longest() -> [u8; BYTES]
    ensures { 65536 ≡ length result }
{
    let mut s = programs::roles_buffer();
    s[0] = SIZES;
    s[1] = 1;
    s[2] = 1;
    s[3] = 1;
    s[4] = 1;
    for k in 0..ASSIGNMENTS {
        s[5 + 3 * k] = ASSIGN;
    }
    s[FIRST_PERMISSION] = PERMIT;
    s[SECOND_PERMISSION] = PERMIT;
    s[THIRD_PERMISSION] = PERMIT;
    s[LAST] = END;
    s
}

// A sum over the bytes in which the place of each counts.
fn checksum(s: &[u8]) -> usize
    ensures { result ≤ 4294967290 }
{
    let mut sum: usize = 0;
    for byte in s {
        sum = (257 * sum + *byte as usize + 1) % 4294967291;
    }
    sum
}

// Prints the bytes in hexadecimal.
fn print_bytes(rt: &impl Print, s: &[u8]) -> io::Result<()> {
    for byte in s {
        print!(rt; "{byte:02x}")?;
    }
    Ok(())
}

// Prints what the memory for output holds, a long one by its checksum, and ends the line.
pub fn print_memory(rt: &impl Print, s: &[u8]) -> io::Result<()> {
    if s.len() <= 48 {
        programs::say(rt, b", memory ")?;
        print_bytes(rt, s)?;
    } else {
        print_number(rt, b", checksum ", checksum(s))?;
    }
    programs::say(rt, b"\n")
}

// Fills the memory for output with bytes that differ from place to place and from seed to seed.
pub fn fill_memory(s: &mut [u8], seed: usize) {
    for (i, byte) in s.iter_mut().enumerate() {
        *byte = ((7 * (i % 251) + seed % 251) % 251) as u8;
    }
}

// Fills scratch with words that differ from place to place and from seed to seed.
pub fn fill_scratch(scratch: &mut [u64], seed: usize) {
    let mut word = (seed % 65536) as u64 + 1;
    for place in scratch {
        word ^= word << 13;
        word ^= word >> 7;
        word ^= word << 17;
        *place = word;
    }
}
