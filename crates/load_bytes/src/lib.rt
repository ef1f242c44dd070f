// Bytes put into lent memory as far as it goes: a load that is run over memory too short for it is measured, and over enough it is written.
#![tactic(auto)]

ghost use Rattle.std.specs.Prelude.{◌≡◌, ◌≤◌, length, set};
ghost use Rattle.load_bytes.specs.Putting.{Put};

// Stores a byte where there is a place for it.
fn store(b: u8, out: &mut [u8], at: usize)
    ensures { out.new ≡ set out.old at b }
{
    if at < out.len() {
        out[at] = b;
    }
}

// Puts bytes from a place on, as far as there are places, and answers the place behind them.
pub fn put(bytes: &[u8], out: &mut [u8], at: usize) -> usize
    requires { (at ≤ 1000000) × (length bytes.now ≤ 16) }
    ensures { Put bytes.now out.old at out.new result }
{
    let n = bytes.len();
    for i in 0..n {
        store(bytes[i], out, at + i);
    }
    at + n
}
