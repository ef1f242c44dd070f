// Cuts between roles, one byte a cut.
#![tactic(auto)]

ghost use Rattle.std.specs.Prelude.{◌≡◌};
ghost use Rattle.files.specs.Calls.{cuts_ok};

fn number(byte: u8) -> usize
    ensures { result ≡ byte }
{
    byte as usize
}

// Whether the cuts ascend strictly, each from 1 to roles - 1.
pub fn legal(cuts: &[u8], roles: usize) -> bool
    ensures { result ≡ cuts_ok cuts.now roles }
{
    let mut low: usize = 0;
    for i in 0..cuts.len() {
        let c = number(cuts[i]);
        if c <= low {
            return false;
        }
        if roles <= c {
            return false;
        }
        low = c;
    }
    true
}
