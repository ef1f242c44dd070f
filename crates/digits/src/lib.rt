// Numbers in digits: decimal ones are read, hexadecimal ones are written.
#![tactic(auto)]

ghost use Rattle.std.specs.Prelude.{◌≡◌, ◌+◌, ◌-◌, ◌*◌, ◌≤◌, ◌<◌, min};
ghost use Rattle.digits.specs.Digits.{is_within, number_in, hex_digit};

// Far beyond every size that a role file can declare, and every count of rules that a program can hold: such numbers need not be told
// apart above this one.
pub const MANY: u32 = 999999;

// Whether a number lies between two others, or is one of them.
pub fn within(n: usize, low: usize, high: usize) -> bool
    ensures { result ≡ is_within n low high }
{
    low <= n && n <= high
}

// The bytes of the digits.
fn is_digit(c: u8) -> bool
    ensures { result ≡ is_within c 48 57 }
{
    within(c as usize, 48, 57)
}

// The number with one digit more behind it.
fn with_digit(n: usize, c: u8, last: u32) -> usize
    requires { (n ≤ last + 1) × (48 ≤ c) }
    ensures { result ≡ min (10 * n + (c - 48)) (last + 1) }
{
    let more = 10 * n + (c - 48) as usize;
    let beyond = last as usize + 1;
    more.min(beyond)
}

// One digit or more, and nothing else. Numbers are told apart up to the last: a larger one is taken for the one behind it, so that any
// number of digits can be read.
pub fn number_in(text: &[u8], last: u32) -> Option<usize>
    ensures { result ≡ number_in last text.now }
{
    if text.is_empty() {
        return None;
    }
    let mut n: usize = 0;
    for c in text {
        if !is_digit(*c) {
            return None;
        }
        n = with_digit(n, *c, last);
    }
    Some(n)
}

// The byte of a hexadecimal digit.
pub fn hex_digit(n: u8) -> u8
    requires { n < 16 }
    ensures { result ≡ hex_digit n }
{
    if n < 10 {
        return 48 + n;
    }
    55 + n
}
