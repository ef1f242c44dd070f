// Works with a standing summary of rights, as many times as the first two bytes of standard input say, low byte first, and
// prints a checksum of words of its table. The byte behind them says what is done each time: 0 fills the table, 1 gives or
// takes an assignment, 2 gives one that is there or takes one that is not, and any other looks a word up. A role file
// follows. The plain Rust program of bench/rights does the same, and the two are measured against each other.
#![tactic(auto)]

use role_record::{Grid, RoleFile};
use std::io;

const WORDS: usize = right_answers::WORDS;

fn add(sum: u64, table: &Grid, i: usize) -> u64 {
    sum.wrapping_add(table[i % WORDS])
}

// Of a table whose length is in its type, so that loops have nothing to say of it. The record goes by value, as it does to the calls that C
// and Rust make; a table that is refused stays as it is.
fn fill(f: RoleFile, table: &mut Grid) {
    let _ = right_edits::fill(&f, table);
}

// The record goes by value, and the one after the edit goes where the caller keeps it: a record of its own, so that the copy is made.
fn edit(
    f: RoleFile,
    table: &mut Grid,
    gives: bool,
    role: usize,
    user: usize,
    after: &mut RoleFile,
) {
    *after = f;
    let _ = right_edits::edit(after, table, gives, role, user);
}

fn fill_often(f: RoleFile, turns: usize) -> u64 {
    let mut table = [0u64; WORDS];
    let mut sum: u64 = 0;
    for turn in 0..turns {
        fill(f, &mut table);
        sum = add(sum, &table, turn);
    }
    sum
}

// Every edit changes an assignment, or none does. Two records take turns: each edit is handed the one that the edit before wrote.
fn edit_often(loaded: RoleFile, changing: bool, turns: usize) -> u64 {
    let mut table = [0u64; WORDS];
    fill(loaded, &mut table);
    let mut even = loaded;
    let mut odd = loaded;
    let mut sum: u64 = 0;
    for turn in 0..turns {
        let role = turn % RoleFile::ROLES;
        let user = turn % RoleFile::USERS;
        if turn % 2 == 0 {
            let gives = sets::has(even.assigned[role], user) != changing;
            edit(even, &mut table, gives, role, user, &mut odd);
        } else {
            let gives = sets::has(odd.assigned[role], user) != changing;
            edit(odd, &mut table, gives, role, user, &mut even);
        }
        sum = add(
            sum,
            &table,
            RoleFile::OPERATIONS * user + turn % RoleFile::OPERATIONS,
        );
    }
    sum
}

fn look_often(f: RoleFile, turns: usize) -> u64 {
    let mut table = [0u64; WORDS];
    fill(f, &mut table);
    let mut sum: u64 = 0;
    for turn in 0..turns {
        sum = add(sum, &table, turn);
    }
    sum
}

// Of a file that is refused the record is empty.
fn checksum(what: usize, file: &[u8], turns: usize) -> u64 {
    let f = role_file::read(file).unwrap_or(RoleFile::empty());
    match what {
        0 => fill_often(f, turns),
        1 => edit_often(f, true, turns),
        2 => edit_often(f, false, turns),
        _ => look_often(f, turns),
    }
}

fn main(rt: HostRuntime) -> io::Result<()> {
    let mut head = [0u8; 3];
    programs::read_open(&mut rt.stdin(), &mut head)?;
    let turns = file_bytes::byte_at(&head, 0) + 256 * file_bytes::byte_at(&head, 1);
    let mut file = programs::roles_buffer();
    let n = programs::read_open(&mut rt.stdin(), &mut file)?;
    let sum = checksum(file_bytes::byte_at(&head, 2), &file[..n], turns);
    println!(rt; "{sum}")
}
