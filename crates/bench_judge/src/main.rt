// Judges the rule file beside a role file on standard input as many times as the two bytes in front of them say, low byte first, and
// prints a checksum of the verdicts. The two bytes behind these are the length of the role file. The plain Rust program of bench/judge
// does the same, and the two are measured against each other; beside the proofs it judges example A of 01, a hundred times.
#![tactic(auto)]

ghost use Rattle.std.specs.Prelude.{◌≡◌};
ghost use Rattle.files.specs.Answer.{told, accepted};
ghost use Rattle.files.specs.Calls.{judge, verdict_told};
ghost use Rattle.files.specs.Cause.{answer_of};
ghost use Rattle.rule_judge.specs.Judgement.{verdict_numbers};
ghost use Rattle.bench_judge.specs.JudgeChecksum.{weight_of, sample_of, total};

use files::Refusal;
use rule_judge::Verdict;
use std::io;

// The verdict's number and values, added up.
fn verdict_weight(verdict: Verdict) -> u64
    ensures { result ≡ weight_of (told verdict_numbers (accepted verdict)) }
{
    match verdict {
        Verdict::Sound => 0,
        Verdict::Differ(user, resource, operation) => {
            let of_user = 1u64.wrapping_add(user as u64);
            let of_others = (resource as u64).wrapping_add(operation as u64);
            of_user.wrapping_add(of_others)
        }
        Verdict::StrayRule(rule) => 2u64.wrapping_add(rule as u64),
        Verdict::StrayPart(part) => 3u64.wrapping_add(part as u64),
    }
}

// The weight of the verdict, or a refusal's number behind those of the verdicts.
fn weight(judged: Result<Verdict, Refusal>) -> u64
    ensures { result ≡ weight_of (told verdict_numbers (answer_of judged)) }
{
    match judged {
        Ok(verdict) => verdict_weight(verdict),
        Err(refusal) => 4u64.wrapping_add(refusal.number() as u64),
    }
}

// Judges once, and adds the turn.
fn sample(file: &[u8], rules: &[u8], turn: usize) -> u64
    ensures { result ≡ sample_of (told verdict_told (judge 2 file.now rules.now)) turn }
{
    weight(rule_judge::judge(file, rules)).wrapping_add(turn as u64)
}

fn checksum(file: &[u8], rules: &[u8], turns: usize) -> u64
    ensures { result ≡ total (sample_of (told verdict_told (judge 2 file.now rules.now))) turns }
{
    let mut sum: u64 = 0;
    for turn in 0..turns {
        sum = sum.wrapping_add(sample(file, rules, turn));
    }
    sum
}

// Prints the checksum of what stands behind the numbers in front.
fn print_checksum(rt: &impl Print, s: &[u8]) -> io::Result<()> {
    let turns = file_bytes::byte_at(s, 0) + 256 * file_bytes::byte_at(s, 1);
    let low = file_bytes::byte_at(s, 2);
    let high = file_bytes::byte_at(s, 3);
    let end = 4 + low + 256 * high;
    if s.len() < end {
        return Ok(());
    }
    let sum = checksum(&s[4..end], &s[end..], turns);
    println!(rt; "{sum}")
}

fn main(rt: HostRuntime) -> io::Result<()> {
    // the two files may have this much together
    let mut input = [0u8; 262144];
    let n = programs::read_open(&mut rt.stdin(), &mut input)?;
    print_checksum(&rt, &input[..n])
}
