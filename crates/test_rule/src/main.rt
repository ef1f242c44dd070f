// Reads a corpus of cases from standard input and prints for each what the judge says of its two files and what its rule question
// answers, a line a case; then the same for long files. tests/rulecases.py makes the corpus, and an independent implementation the
// lines that these are held to.
#![tactic(auto)]

ghost use Rattle.std.specs.Prelude.{◌≡◌, ◌+◌, ◌≤◌, min, length, IfOk};
ghost use Rattle.file_bytes.specs.Numbers.{number_at};

use files::{Refusal, rule_byte};
use role_record::RoleFile;
use rule_judge::Verdict;
use std::io;

// Prints a verdict with its number and its values, or a refusal.
fn print_verdict(rt: &impl Print, judged: Result<Verdict, Refusal>) -> io::Result<()> {
    match judged {
        Ok(Verdict::Sound) => programs::say(rt, b"verdict 0"),
        Ok(Verdict::Differ(user, resource, operation)) => {
            test_lines::print_number(rt, b"verdict 1 ", user)?;
            test_lines::print_number(rt, b" ", resource)?;
            test_lines::print_number(rt, b" ", operation)
        }
        Ok(Verdict::StrayRule(rule)) => test_lines::print_number(rt, b"verdict 2 ", rule),
        Ok(Verdict::StrayPart(part)) => test_lines::print_number(rt, b"verdict 3 ", part),
        Err(refusal) => test_lines::print_refusal(rt, refusal),
    }
}

// Prints the line of a role file, a rule file and a question.
fn print_answers(
    rt: &impl Print,
    file: &[u8],
    rules: &[u8],
    user: usize,
    resource: usize,
    operation: usize,
) -> io::Result<()> {
    print_verdict(rt, rule_judge::judge(file, rules))?;
    programs::say(rt, b", ")?;
    let reply = rule_question::ask(file, rules, user, resource, operation);
    test_lines::print_reply(rt, reply)
}

// Prints the line of the case in front, and returns how many bytes the case takes. A case is the length of its rule file (two bytes,
// low byte first), user, resource and operation, and the rule file. One that is cut off takes what is left, and has no line.
fn case(rt: &impl Print, file: &[u8], s: &[u8]) -> io::Result<usize>
    ensures { IfOk result (λ n. n ≡ min (5 + number_at 2 s.now 0) (length s.now)) }
{
    let low = file_bytes::byte_at(s, 0);
    let high = file_bytes::byte_at(s, 1);
    let end = 5 + low + 256 * high;
    if s.len() < end {
        return Ok(s.len());
    }
    let user = file_bytes::byte_at(s, 2);
    let resource = file_bytes::byte_at(s, 3);
    let operation = file_bytes::byte_at(s, 4);
    print_answers(rt, file, &s[5..end], user, resource, operation)?;
    Ok(end)
}

// Prints the lines of that many cases with one role file, and returns how many bytes they take.
fn cases(rt: &impl Print, file: &[u8], count: usize, s: &[u8]) -> io::Result<usize>
    ensures { IfOk result (λ n. n ≤ length s.now) }
{
    let mut at: usize = 0;
    for _ in 0..count {
        at += case(rt, file, &s[at..])?;
    }
    Ok(at)
}

// Prints the lines of the cases in front that have one role file, and returns how many bytes they take. Such a group is the length of
// the role file (two bytes, low byte first), the number of cases, the role file, and the cases.
fn group(rt: &impl Print, s: &[u8]) -> io::Result<usize>
    ensures { IfOk result (λ n. (min 3 (length s.now) ≤ n) × (n ≤ length s.now)) }
{
    let low = file_bytes::byte_at(s, 0);
    let high = file_bytes::byte_at(s, 1);
    let end = 3 + low + 256 * high;
    if s.len() < end {
        return Ok(s.len());
    }
    let count = file_bytes::byte_at(s, 2);
    Ok(end + cases(rt, &s[3..end], count, &s[end..])?)
}

// The groups one after the other.
fn groups(rt: &impl Print, s: &[u8]) -> io::Result<()> {
    let mut rest = s;
    while !rest.is_empty() {
        let n = group(rt, rest)?;
        rest = &rest[n..];
    }
    Ok(())
}

const SHAPE: u8 = rule_byte::SHAPE as u8;

const OPENS: u8 = rule_byte::OPENS as u8;

const OPERATIONS: u8 = rule_byte::OPERATIONS as u8;

const PART: u8 = rule_byte::PART as u8;

const LEVEL: u8 = rule_byte::LEVEL as u8;

const ENDS: u8 = rule_byte::ENDS as u8;

const RULE: [u8; 10] = [OPENS, OPERATIONS, 1, 0, PART, 0, 1, 0, LEVEL, 0];

// As many rules of ten bytes as make a rule file longer than a role file may be.
const RULES: usize = (RoleFile::BYTES + 1) / 10;

const FIRST: usize = rule_opening::BYTES;

const LAST: usize = FIRST + 10 * RULES;

const LENGTH: usize = LAST + 1;

// The 20 of a role file with one of everything and no attributes, rules of level 0 that list the one part there is, and the end; and a zero behind it.
fn many_rules() -> [u8; LENGTH + 1]
    ensures { 65539 ≡ length result }
{
    let mut s = [0u8; LENGTH + 1];
    s[..5].copy_from_slice(&[SHAPE, 1, 1, 1, 1]);
    for k in 0..RULES {
        s[FIRST + 10 * k..FIRST + 10 * (k + 1)].copy_from_slice(&RULE);
    }
    s[LAST] = ENDS;
    s
}

// Prints the lines of a long rule file: whole, a byte less and a byte more.
fn print_long(rt: &impl Print, file: &[u8], s: &[u8]) -> io::Result<()>
    requires { 65539 ≡ length s.now }
{
    print_answers(rt, file, &s[0..LENGTH], 0, 0, 0)?;
    print_answers(rt, file, &s[0..LAST], 0, 0, 0)?;
    print_answers(rt, file, s, 0, 0, 0)
}

fn main(rt: HostRuntime) -> io::Result<()> {
    // tests/rulecases.py makes no longer corpus
    let mut corpus = [0u8; 327680];
    let n = programs::read_open(&mut rt.stdin(), &mut corpus)?;
    groups(&rt, &corpus[..n])?;
    let zeros = programs::roles_buffer();
    print_answers(&rt, &zeros, &zeros, 0, 0, 0)?;
    // one user, resource, operation and role; the assignment, the permission, the end
    let file = b"\x01\x01\x01\x01\x01\x05\x00\x00\x06\x00\x00\x00\x0F";
    let rules = many_rules();
    print_long(&rt, file, &rules)
}
