// Reads a role file from standard input as many times as the two bytes in front of it say, low byte first, and prints a checksum of
// what was read. The plain Rust program of bench/read does the same, and the two are measured against each other; beside the proofs
// it reads example A of 01, a hundred times.
#![tactic(auto)]

ghost use Rattle.std.specs.Prelude.{◌≡◌};
ghost use Rattle.files.specs.Answer.{map_answer};
ghost use Rattle.files.specs.RoleFile.{read_roles};
ghost use Rattle.role_record.specs.Record.{record_of};
ghost use Rattle.bench_read.specs.ReadChecksum.{sample_of, total, weight_of};

use role_record::RoleFile;
use std::io;

const VALUES: usize = RoleFile::SIDES * RoleFile::ATTRIBUTES * RoleFile::MEMBERS;

// Some words of the record, added up; other words each turn.
fn weight(f: &RoleFile, turn: usize) -> u64
    ensures { result ≡ weight_of f.now turn }
{
    let given = f.values[turn % VALUES].wrapping_add(f.permissions[turn % RoleFile::PARTS]);
    let worked_out = f.seniors[turn % RoleFile::ROLES].wrapping_add(
        f.holders[turn % RoleFile::ROLES],
    );
    given.wrapping_add(worked_out)
}

// Reads once, and weighs the record, or answers the number of the refusal.
fn sample(s: &[u8], turn: usize) -> u64
    ensures { result ≡ sample_of (map_answer record_of (read_roles 2 s.now)) turn }
{
    match role_file::read(s) {
        Ok(f) => weight(&f, turn),
        Err(refusal) => refusal.number() as u64,
    }
}

fn checksum(s: &[u8], turns: usize) -> u64
    ensures { result ≡ total (sample_of (map_answer record_of (read_roles 2 s.now))) turns }
{
    let mut sum: u64 = 0;
    for turn in 0..turns {
        sum = sum.wrapping_add(sample(s, turn));
    }
    sum
}

fn main(rt: HostRuntime) -> io::Result<()> {
    let mut head = [0u8; 2];
    programs::read_open(&mut rt.stdin(), &mut head)?;
    let turns = file_bytes::byte_at(&head, 0) + 256 * file_bytes::byte_at(&head, 1);
    let mut file = programs::roles_buffer();
    let n = programs::read_open(&mut rt.stdin(), &mut file)?;
    let sum = checksum(&file[..n], turns);
    println!(rt; "{sum}")
}
