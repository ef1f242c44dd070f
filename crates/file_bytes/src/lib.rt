// Numbers in the bytes of a file.
#![tactic(auto)]

ghost use Rattle.std.specs.Prelude.{◌≡◌, ◌≤◌, ◌<◌};
ghost use Rattle.file_bytes.specs.Numbers.{number_at};

// Byte i as a number, and 0 past the end.
pub fn byte_at(s: &[u8], i: usize) -> usize
    ensures { (result ≡ number_at 1 s.now i) × (result < 256) }
{
    if i < s.len() { s[i] as usize } else { 0 }
}

// N bytes from place i on, low byte first.
pub fn number<const N: usize>(s: &[u8], i: usize) -> u64
    requires { (N ≤ 8) × (i ≤ 8) }
    ensures { result ≡ number_at N s.now i }
{
    let mut n: u64 = 0;
    for k in 0..N {
        n = 256 * n + byte_at(s, i + (N - 1 - k)) as u64;
    }
    n
}
