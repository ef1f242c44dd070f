// A number that an argument gives.
use crate::argument::{complain_of, read_argument};

// The number that argument i gives, told apart from others up to the last. One that is too long to be read whole is none. Where it gives
// none, a line on standard error says so.
pub fn number_named(
    rt: &HostRuntime,
    program: &[u8],
    i: usize,
    last: u32,
    wrong: &[u8],
) -> Option<usize> {
    let mut text = [0u8; 4096];
    let n = read_argument(rt, i, &mut text);
    let given = digits::number_in(&text[..n], last);
    if given.is_none() {
        complain_of(rt, program, i, wrong);
    }
    given
}
