// Reads a corpus of cases from standard input and prints for each what reading its file, showing its circle and asking its question
// answer, a line a case; then the same for files at the limit of length. tests/rolecases.py makes the corpus, and an independent
// implementation the lines that these are held to.
#![tactic(auto)]

ghost use Rattle.std.specs.Prelude.{◌≡◌, ◌+◌, min, length, IfOk};
ghost use Rattle.file_bytes.specs.Numbers.{number_at};

use role_record::RoleFile;
use std::io;

// Prints the first n roles, those of a circle.
fn print_roles(rt: &impl Print, roles: &[u8], n: usize) -> io::Result<()> {
    for role in roles.iter().take(n) {
        test_lines::print_number(rt, b" ", *role as usize)?;
    }
    Ok(())
}

// Prints what showing the circle of a file answers.
fn print_circle(rt: &impl Print, file: &[u8]) -> io::Result<()> {
    let mut roles = [0u8; RoleFile::ROLES];
    match role_circle::circle(file, &mut roles) {
        Ok(n) => {
            programs::say(rt, b"circle")?;
            print_roles(rt, &roles, n)
        }
        Err(refusal) => test_lines::print_refusal(rt, refusal),
    }
}

// Prints the line of one file and one question.
fn print_answers(
    rt: &impl Print,
    file: &[u8],
    user: usize,
    resource: usize,
    operation: usize,
) -> io::Result<()> {
    let code = match role_file::read(file) {
        Ok(_) => 0,
        Err(refusal) => refusal.number(),
    };
    programs::say_number(rt, code)?;
    programs::say(rt, b" ")?;
    print_circle(rt, file)?;
    programs::say(rt, b" ")?;
    test_lines::print_reply(rt, role_question::ask(file, user, resource, operation))
}

// Prints the line of the case in front, and returns how many bytes the case takes. A case is the length of its file (two bytes, low
// byte first), user, resource and operation, and the file. One that is cut off takes what is left, and has no line.
fn case(rt: &impl Print, s: &[u8]) -> io::Result<usize>
    ensures { IfOk result (λ n. n ≡ min (5 + number_at 2 s.now 0) (length s.now)) }
{
    let low = file_bytes::byte_at(s, 0);
    let high = file_bytes::byte_at(s, 1);
    let end = 5 + low + 256 * high;
    if s.len() < end {
        return Ok(s.len());
    }
    let user = file_bytes::byte_at(s, 2);
    let resource = file_bytes::byte_at(s, 3);
    let operation = file_bytes::byte_at(s, 4);
    print_answers(rt, &s[5..end], user, resource, operation)?;
    Ok(end)
}

// The cases one after the other.
fn cases(rt: &impl Print, s: &[u8]) -> io::Result<()> {
    let mut rest = s;
    while !rest.is_empty() {
        let n = case(rt, rest)?;
        rest = &rest[n..];
    }
    Ok(())
}

// Prints the lines of as many bytes as a role file may have and of one byte more.
fn print_both(rt: &impl Print, s: &[u8]) -> io::Result<()>
    requires { 65536 ≡ length s.now }
{
    print_answers(rt, &s[0..RoleFile::BYTES], 0, 0, 0)?;
    print_answers(rt, s, 0, 0, 0)
}

fn main(rt: HostRuntime) -> io::Result<()> {
    // tests/rolecases.py makes no longer corpus
    let mut corpus = [0u8; 131072];
    let n = programs::read_open(&mut rt.stdin(), &mut corpus)?;
    cases(&rt, &corpus[..n])?;
    let zeros = programs::roles_buffer();
    print_both(&rt, &zeros)?;
    let file = test_lines::longest();
    print_both(&rt, &file)
}
