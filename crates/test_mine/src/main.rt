// Reads a corpus of cases from standard input and prints for each what mining by four ones answers and what it leaves in the memory that was
// lent for output, a line a case; then the same for files at the limit of length. tests/minecases.py makes the corpus, and an independent
// implementation the lines that these are held to.
#![tactic(auto)]

ghost use Rattle.std.specs.Prelude.{◌≡◌, ◌+◌, min, length, IfOk};
ghost use Rattle.file_bytes.specs.Numbers.{number_at};

use files::Refusal;
use role_record::RoleFile;
use std::io;
use write_answer::Mined;

// Prints the length, the counts and the cost, or a refusal.
fn print_answer(rt: &impl Print, answer: Result<Mined, Refusal>) -> io::Result<()> {
    match answer {
        Ok(mined) => {
            test_lines::print_number(rt, b"length ", mined.length)?;
            test_lines::print_number(rt, b" parts ", mined.parts)?;
            test_lines::print_number(rt, b" rules ", mined.rules)?;
            test_lines::print_number(rt, b" merges ", mined.merges)?;
            test_lines::print_number(rt, b" cost ", mined.cost as usize)
        }
        Err(refusal) => test_lines::print_refusal(rt, refusal),
    }
}

// Prints the line of a file, whatever scratch and output held before: both are filled anew.
fn print_line(
    rt: &impl Print,
    file: &[u8],
    cuts: &[u8],
    seed: usize,
    scratch: &mut [u64],
    out: &mut [u8],
) -> io::Result<()> {
    test_lines::fill_scratch(scratch, seed);
    test_lines::fill_memory(out, seed);
    print_answer(rt, mining::mine(file, cuts, mining::ones(), scratch, out))?;
    test_lines::print_memory(rt, out)
}

// Prints the line of the case in front, and returns how many bytes the case takes. A case is the length of its file (two bytes, low
// byte first), the words of scratch (two bytes) and the bytes of output to lend (three bytes), the number of cuts (one byte), the cuts,
// and the file. One that ends before its file does takes what is left, and has no line.
fn case(
    rt: &impl Print,
    s: &[u8],
    seed: usize,
    scratch: &mut [u64],
    out: &mut [u8],
) -> io::Result<usize>
    ensures { IfOk result (λ n. n
        ≡ min (8 + number_at 1 s.now 7 + number_at 2 s.now 0) (length s.now)) }
{
    let low = file_bytes::byte_at(s, 0);
    let high = file_bytes::byte_at(s, 1);
    let start = 8 + file_bytes::byte_at(s, 7);
    let end = start + (low + 256 * high);
    if s.len() < end {
        return Ok(s.len());
    }
    let words = file_bytes::byte_at(s, 2) + 256 * file_bytes::byte_at(s, 3);
    let room = file_bytes::byte_at(s, 4)
        + 256 * file_bytes::byte_at(s, 5)
        + 65536 * file_bytes::byte_at(s, 6);
    let words = words.min(scratch.len());
    let room = room.min(out.len());
    print_line(
        rt,
        &s[start..end],
        &s[8..start],
        seed,
        &mut scratch[..words],
        &mut out[..room],
    )?;
    Ok(end)
}

// The cases one after the other. The place of a case is its seed.
fn cases(rt: &impl Print, s: &[u8], scratch: &mut [u64], out: &mut [u8]) -> io::Result<()> {
    let mut at: usize = 0;
    while at < s.len() {
        at += case(rt, &s[at..], at, scratch, out)?;
    }
    Ok(())
}

// One word less than a caller has to lend.
const TOO_FEW: usize = mining::SCRATCH - 1;

// Prints the lines of as many bytes as a role file may have and of one byte more, with just enough scratch and with a word less.
fn print_both(rt: &impl Print, s: &[u8], out: &mut [u8]) -> io::Result<()>
    requires { 65536 ≡ length s.now }
{
    let mut scratch = [0u64; mining::SCRATCH];
    print_line(rt, &s[0..RoleFile::BYTES], b"", 1, &mut scratch, out)?;
    print_line(rt, s, b"", 2, &mut scratch, out)?;
    print_line(rt, s, b"", 3, &mut scratch[0..TOO_FEW], out)
}

// Cases lend more words than are needed, too.
const WORDS: usize = 2 * mining::SCRATCH;

fn main(rt: HostRuntime) -> io::Result<()> {
    // tests/minecases.py makes no longer corpus
    let mut corpus = [0u8; 344064];
    let n = programs::read_open(&mut rt.stdin(), &mut corpus)?;
    let mut scratch = [0u64; WORDS];
    // the longest of the outputs, and more
    let mut out = [0u8; 327680];
    cases(&rt, &corpus[..n], &mut scratch, &mut out)?;
    let mut short = [0u8; 48];
    let zeros = programs::roles_buffer();
    print_both(&rt, &zeros, &mut short)?;
    let file = test_lines::longest();
    print_both(&rt, &file, &mut short)
}
