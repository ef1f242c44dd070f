// Mines the role file on standard input by four ones and prints a checksum of the answers and of the output, of which each turn looks at another
// byte, so that no byte can be left unwritten. In front of the file stand the number of turns, two bytes, low byte first, the number of cuts, a
// byte, and the cuts. The programs of bench/mine do the same, by hand and with a second miner, and all are measured; beside the proofs it
// mines example A of 01, a hundred times.
#![tactic(auto)]

ghost use Rattle.std.specs.Prelude.{◌≡◌, suc, length};
ghost use Rattle.files.specs.Answer.{told};
ghost use Rattle.files.specs.Calls.{count_values, mine_answer, mine_output};
ghost use Rattle.files.specs.Cause.{answer_of};
ghost use Rattle.policy.specs.Cost.{four_ones};
ghost use Rattle.write_answer.specs.MinedNumbers.{mined_numbers};
ghost use Rattle.bench_mine.specs.MineChecksum.{weight_of, sample_of, memory_after, total};

use files::Refusal;
use std::io;
use write_answer::Mined;

// The length, the counts and the cost added up, or the number of the refusal.
fn weight(answer: Result<Mined, Refusal>) -> u64
    ensures { result ≡ weight_of (told mined_numbers (answer_of answer)) }
{
    match answer {
        Ok(mined) => {
            let of_file = (mined.length as u64).wrapping_add(mined.cost);
            let of_groups = (mined.rules as u64).wrapping_add(mined.merges as u64);
            of_file.wrapping_add((mined.parts as u64).wrapping_add(of_groups))
        }
        Err(refusal) => refusal.number() as u64,
    }
}

// Mines once, and adds the turn and a byte of the output.
fn sample(file: &[u8], cuts: &[u8], scratch: &mut [u64], out: &mut [u8], turn: usize) -> u64
    ensures { (result
        ≡ sample_of
        (told count_values
        (mine_answer 2 file.now cuts.now four_ones (length scratch.old)
        (length out.old)))
        out.new turn)
        × (out.new
        ≡ mine_output 2 file.now cuts.now (length scratch.old)
        out.old) }
{
    let answer = mining::mine(file, cuts, mining::ones(), scratch, out);
    let said = weight(answer).wrapping_add(turn as u64);
    said.wrapping_add(file_bytes::byte_at(out, turn) as u64)
}

fn checksum(file: &[u8], cuts: &[u8], scratch: &mut [u64], out: &mut [u8], turns: usize) -> u64
    ensures { result
        ≡ total
        (λ t. sample_of
        (told count_values
        (mine_answer 2 file.now cuts.now four_ones (length scratch.old)
        (length out.old)))
        (memory_after
        (mine_output 2 file.now cuts.now (length scratch.old))
        out.old (suc t)) t)
        turns }
{
    let mut sum: u64 = 0;
    for turn in 0..turns {
        sum = sum.wrapping_add(sample(file, cuts, scratch, out, turn));
    }
    sum
}

// Memory for rules: more than the longest rule file of bench/mine.
fn out_buffer() -> [u8; 524288]
    ensures { 524288 ≡ length result }
{
    [0; 524288]
}

// Prints the checksum of the file that stands behind the numbers in front.
fn print_checksum(rt: &impl Print, s: &[u8]) -> io::Result<()> {
    let turns = file_bytes::byte_at(s, 0) + 256 * file_bytes::byte_at(s, 1);
    let start = 3 + file_bytes::byte_at(s, 2);
    if s.len() < start {
        return Ok(());
    }
    let mut scratch = [0u64; mining::SCRATCH];
    let mut out = out_buffer();
    let sum = checksum(&s[start..], &s[3..start], &mut scratch, &mut out, turns);
    println!(rt; "{sum}")
}

fn main(rt: HostRuntime) -> io::Result<()> {
    let mut input = [0u8; 65600];
    let n = programs::read_open(&mut rt.stdin(), &mut input)?;
    print_checksum(&rt, &input[..n])
}
