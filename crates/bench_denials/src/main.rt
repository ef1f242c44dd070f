// Counts the denials in a usage log on standard input as many times as the two bytes in front say, low byte first, and prints a checksum of the
// answers. The two bytes behind these are the length of the role file, the next two that of the rule file, and the next one is the window;
// behind them stand the role file, the rule file and the log. The plain Rust program of bench/denials does the same, and the two are
// measured against each other; beside the proofs it counts in a log of six records beside example A of 01, a hundred times.
#![tactic(auto)]

ghost use Rattle.std.specs.Prelude.{◌≡◌, ◌<◌, length};
ghost use Rattle.files.specs.Answer.{told};
ghost use Rattle.files.specs.Cause.{answer_of};
ghost use Rattle.files.specs.Denials.{denial_answer};
ghost use Rattle.files.specs.Windows.{worst_values};
ghost use Rattle.log_windows.specs.Counting.{worst_numbers};
ghost use Rattle.bench_denials.specs.DenialChecksum.{weight_of, sample_of, total};

use files::Refusal;
use log_windows::Worst;
use std::io;

// What the numbers of the answer come to.
fn weight(counted: Result<Worst, Refusal>) -> u64
    ensures { result ≡ weight_of (told worst_numbers (answer_of counted)) }
{
    match counted {
        Ok(worst) => (worst.most as u64).wrapping_add(worst.start as u64),
        Err(refusal) => refusal.number() as u64,
    }
}

// Counts once, and adds the turn.
fn sample(file: &[u8], rules: &[u8], log: &[u8], window: usize, turn: usize) -> u64
    ensures { result
        ≡ sample_of
        (told worst_values
        (denial_answer 2 file.now rules.now log.now window))
        turn }
{
    weight(log_denials::denials(file, rules, log, window)).wrapping_add(turn as u64)
}

fn checksum(file: &[u8], rules: &[u8], log: &[u8], window: usize, turns: usize) -> u64
    ensures { result
        ≡ total
        (sample_of
        (told worst_values
        (denial_answer 2 file.now rules.now log.now window)))
        turns }
{
    let mut sum: u64 = 0;
    for turn in 0..turns {
        sum = sum.wrapping_add(sample(file, rules, log, window, turn));
    }
    sum
}

// Two of the first bytes as a number, low byte first.
fn pair(s: &[u8], at: usize) -> usize
    requires { at < 8 }
    ensures { result < 65536 }
{
    let low = file_bytes::byte_at(s, at);
    let high = file_bytes::byte_at(s, at + 1);
    low + 256 * high
}

// Prints the checksum of what stands behind the numbers in front.
fn print_checksum(rt: &impl Print, s: &[u8]) -> io::Result<()> {
    let turns = pair(s, 0);
    let rules = 7 + pair(s, 2);
    let log = rules + pair(s, 4);
    if s.len() < log {
        return Ok(());
    }
    let window = file_bytes::byte_at(s, 6);
    let sum = checksum(&s[7..rules], &s[rules..log], &s[log..], window, turns);
    println!(rt; "{sum}")
}

// The two files and the log may have this much together.
fn input_buffer() -> [u8; 3145728]
    ensures { 3145728 ≡ length result }
{
    [0; 3145728]
}

fn main(rt: HostRuntime) -> io::Result<()> {
    let mut input = input_buffer();
    let n = programs::read_open(&mut rt.stdin(), &mut input)?;
    print_checksum(&rt, &input[..n])
}
