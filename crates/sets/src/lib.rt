// Sets of the numbers below 64 as masks: bit n of a number says that n is in the set. Every function takes any numbers, so that
// no caller has to show that a number is below 64.
#![tactic(auto)]

ghost use Rattle.std.specs.Prelude.{ℕ, ◌≤◌, Bool, eqb, ltb, ◌&&◌, ◌||◌, not, ◌≡◌, ◌<◌};
ghost use Rattle.sets.specs.Lowest.{lowest_from};
ghost use Rattle.sets.specs.Members.{LeastComes, how_many};
ghost use Rattle.sets.specs.Sets.{bit, subset, mask_of, less_one, size};

// Whether i is in m.
pub fn has(m: u64, i: usize) -> bool
    ensures { result ≡ bit m i }
{
    i < 64 && (m >> i) & 1 == 1
}

// m and i; m itself where no set can hold i.
pub fn with(m: u64, i: usize) -> u64
    ensures { result ≡ mask_of 64 (λ k. bit m k || eqb k i) }
{
    if i < 64 { m | 1 << i } else { m }
}

// Whether all that is in a is in b.
pub fn within(a: u64, b: u64) -> bool
    ensures { result ≡ subset a b }
{
    a & b == a
}

// Whether b contains all that is in a, and more.
pub fn strictly_within(a: u64, b: u64) -> bool
    ensures { result ≡ (subset a b && not (subset b a)) }
{
    if within(b, a) {
        return false;
    }
    within(a, b)
}

pub fn union(a: u64, b: u64) -> u64
    ensures { result ≡ mask_of 64 (λ k. bit a k || bit b k) }
{
    a | b
}

pub fn meet(a: u64, b: u64) -> u64
    ensures { result ≡ mask_of 64 (λ k. bit a k && bit b k) }
{
    a & b
}

// a less all that is in b.
pub fn without(a: u64, b: u64) -> u64
    ensures { result ≡ mask_of 64 (λ k. bit a k && not (bit b k)) }
{
    a & !b
}

// How many there are.
pub fn count(m: u64) -> usize
    ensures { result ≡ size m }
{
    u64::count_ones(m) as usize
}

// The least; 64 for the empty set.
pub fn least(m: u64) -> usize
    ensures { result ≡ lowest_from (bit m) 0 64 }
{
    u64::trailing_zeros(m) as usize
}

// A set that is not empty, less its least member.
pub fn without_least(m: u64) -> u64
    requires { 0 < m }
    ensures { result ≡ less_one m (lowest_from (bit m) 0 64) }
{
    m & (m - 1)
}

// The set of the numbers below n.
pub fn below(n: usize) -> u64
    ensures { result ≡ mask_of 64 (λ k. ltb k n) }
{
    if n < 64 { (1 << n) - 1 } else { !0 }
}

// Those below n that pass a test.
pub fn those<F: Fn(usize) -> bool>(n: usize, passes: F) -> u64
    requires { (n ≤ 64) × ((i : ℕ) → i < n → F.pre passes i) }
    ensures { (test : ℕ → Bool)
        → ((i : ℕ) (b : Bool) → i < n → F.post passes i b → b ≡ test i)
        → result ≡ mask_of n test }
{
    let mut m: u64 = 0;
    for i in 0..n {
        if passes(i) {
            m = with(m, i);
        }
    }
    m
}

// The members of a set that are left, of which the least comes next.
#[derive(Clone, Copy)]
pub struct Ascending {
    pub rest: u64,
}

impl Iterator for Ascending {
    type Item = usize;

    ghost next_gives = { LeastComes };

    ghost remaining = { how_many };

    #[inline(always)]
    fn next(&mut self) -> Option<usize> {
        if self.rest == 0 {
            return None;
        }
        let y = least(self.rest);
        self.rest = without_least(self.rest);
        Some(y)
    }
}

// The members of a set, ascending: a loop over them looks at those alone.
pub fn members(m: u64) -> Ascending
    ensures { result.rest ≡ m }
{
    Ascending { rest: m }
}
