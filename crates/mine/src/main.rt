// Mines the role file on standard input: mine CUT.. merges within the runs of roles that the cuts make first, mine alone over all roles at once.
// Writes the rules to rules.out in the working directory and prints the counts and the cost by four ones; on a refusal prints its number, and
// rules.out stays as it is; standard error has the number's meaning. Where an argument is no number, or the system does not read or write, a
// line on standard error says so and rules.out stays as it is too.
#![tactic(auto)]

ghost use Rattle.std.specs.Prelude.{◌≤◌, length, IfSome};

use files::Refusal;
use std::io;
use write_answer::Mined;

// One more than a list of cuts can have: no role file has as many places between roles. So a longer list is refused as its first cuts are, and
// these are handed on in its place.
const CUTS: usize = 32;

// No cut is above this one: a larger number is handed on as the one behind it, the last that a byte holds, and refused as that is.
const LAST_CUT: u32 = 254;

fn usage(rt: &HostRuntime) {
    programs::complain(
        rt,
        b"usage: mine CUT.. < ROLES, which writes the rules to rules.out in the working directory; cuts are numbers of roles, and may be left out\n",
    );
}

// The cut that argument i gives.
fn cut_named(rt: &HostRuntime, i: usize) -> Option<usize> {
    programs::number_named(
        rt,
        b"mine",
        i,
        LAST_CUT,
        b"CUT is no number of up to 4,096 digits\n",
    )
}

// The byte of a cut.
fn byte_of(cut: usize) -> u8 {
    cut.min(255) as u8
}

// Puts a cut behind those that the list has, if it has room.
fn hold(cuts: &mut [u8], held: usize, cut: u8) -> usize
    ensures { result ≤ length cuts.old }
{
    let room = cuts.len();
    if room <= held {
        return room;
    }
    cuts[held] = cut;
    held + 1
}

// The first of the cuts that the arguments give, if all are numbers, and how many these are.
fn cuts_named(rt: &HostRuntime, count: usize, cuts: &mut [u8]) -> Option<usize>
    ensures { IfSome result (λ n. n ≤ length cuts.old) }
{
    let mut held: usize = 0;
    for i in 1..count {
        let cut = cut_named(rt, i)?;
        held = hold(cuts, held, byte_of(cut));
    }
    Some(held)
}

// Prints the counts and the cost.
fn print_counts(rt: &impl Print, mined: Mined) -> io::Result<()> {
    programs::say_count(rt, b"parts ", mined.parts)?;
    programs::say_count(rt, b" rules ", mined.rules)?;
    programs::say_count(rt, b" merges ", mined.merges)?;
    programs::say_count(rt, b" cost ", mined.cost as usize)
}

// Says how long the output would have to be, for whoever has more of it to lend.
fn tell_length(rt: &HostRuntime, file: &[u8], cuts: &[u8]) {
    let mut scratch = [0u64; mining::SCRATCH];
    programs::complain(rt, b"mine: the rule file has ");
    let _ = rt.eprint(mining::rule_bytes(file, cuts, &mut scratch));
    programs::complain(
        rt,
        b" bytes, and this program lends 65,536 for it; the library's call takes output of any length\n",
    );
}

// Prints the line of a refusal as 01 has it, the number alone; its meaning goes to standard error.
fn refuse(rt: &HostRuntime, refusal: Refusal, file: &[u8], cuts: &[u8]) {
    let printed = programs::say_count(rt, b"refused ", refusal.number());
    programs::end_line(rt, b"mine", printed);
    programs::complain_refused(rt, b"mine", refusal);
    if refusal == Refusal::ShortOutput {
        tell_length(rt, file, cuts);
    }
}

// Saves the rules, and prints what is told of them.
fn finish(rt: &HostRuntime, mined: Mined, bytes: &[u8]) {
    if programs::save(rt, b"mine", b"rules.out", bytes) {
        programs::end_line(rt, b"mine", print_counts(rt, mined));
    }
}

// Mines the file, and saves and prints what comes of it.
fn mine_file(rt: &HostRuntime, file: &[u8], cuts: &[u8]) {
    let mut scratch = [0u64; mining::SCRATCH];
    let mut out = programs::roles_buffer();
    match mining::mine(file, cuts, mining::ones(), &mut scratch, &mut out) {
        Ok(mined) => finish(rt, mined, &out[..mined.length]),
        Err(refusal) => refuse(rt, refusal, file, cuts),
    }
}

// Mines what standard input has.
fn mine_input(rt: &HostRuntime, cuts: &[u8]) {
    let mut input = programs::roles_buffer();
    match programs::read_open(&mut rt.stdin(), &mut input) {
        Ok(n) => mine_file(rt, &input[..n], cuts),
        Err(error) => programs::fail(rt, b"mine", b"cannot read standard input", &error),
    }
}

fn main(rt: HostRuntime) {
    let mut cuts = [0u8; CUTS];
    match cuts_named(&rt, programs::argument_count(&rt), &mut cuts) {
        Some(n) => mine_input(&rt, &cuts[..n]),
        None => usage(&rt),
    }
}
