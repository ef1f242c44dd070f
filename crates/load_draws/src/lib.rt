// Marsaglia's generator, and runs of its draws that make lines of one sort.
#![tactic(auto)]

ghost use Rattle.std.specs.Prelude.{◌≡◌, ℕ, ◌<◌, ◌≤◌};
ghost use Rattle.files.specs.Load.{xorshift};
ghost use Rattle.load_draws.specs.Runs.{Ran, drawn_lines};
ghost use Rattle.load_lines.specs.DrawnLines.{Fits};

use load_lines::{Draws, line};

// Where the next line goes, and the generator's last output.
#[derive(Clone, Copy)]
pub struct Drawn {
    pub at: usize,
    pub last: u32,
}

// The output after this one.
fn next(x: u32) -> u32
    ensures { result ≡ xorshift x }
{
    let a = x ^ (x << 13);
    let b = a ^ (a >> 17);
    b ^ (b << 5)
}

// So many draws, each with its line.
pub fn draw_lines(draws: Draws, n: usize, d: Drawn, out: &mut [u8]) -> Drawn
    requires { (n ≤ 64) × ((i : ℕ) → i < n → Fits draws i) × (d.at ≤ 900000) }
    ensures { Ran (drawn_lines draws n) d out.old out.new result }
{
    let mut at = d.at;
    let mut last = d.last;
    for i in 0..n {
        last = next(last);
        at = line(draws, i, last, out, at);
    }
    Drawn { at, last }
}
