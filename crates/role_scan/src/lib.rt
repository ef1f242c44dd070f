// Whose values pass a test. A table of values has 64 to a column, one for each user or resource, and the answer is the set of those in the
// column whose value passes. The loop goes from the last to the first and shifts the set up, which takes no branch.
#![tactic(auto)]

ghost use Rattle.std.specs.Prelude.{ℕ, Bool, get_or, ◌≡◌, ◌+◌, ◌*◌, ◌<◌};
ghost use Rattle.sets.specs.Sets.{mask_of};
ghost use Rattle.role_scan.specs.Asked.{contains, equals};

use role_record::{RoleFile, Values};

// Members are asked from the last to the first.
const LAST: usize = RoleFile::MEMBERS - 1;

// What is asked of a value.
pub trait Test {
    ghost test: { Self → ℕ → Bool };

    fn passes(&self, value: u64) -> bool
        ensures { result ≡ test self.now value };
}

// Whether it contains a set.
#[derive(Clone, Copy)]
pub struct Containing(pub u64);

impl Test for Containing {
    ghost test = { contains };

    fn passes(&self, value: u64) -> bool {
        sets::within(self.0, value)
    }
}

// Whether it is a number.
#[derive(Clone, Copy)]
pub struct Equal(pub u64);

impl Test for Equal {
    ghost test = { equals };

    fn passes(&self, value: u64) -> bool {
        self.0 == value
    }
}

// Whose values pass a test.
pub fn passing<T: Test>(values: &Values, column: usize, test: &T) -> u64
    requires { column < 12 }
    ensures { result ≡ mask_of 64 (λ x. T.test test.now (get_or values.now (64 * column + x) 0)) }
{
    let mut m: u64 = 0;
    for x in 0..RoleFile::MEMBERS {
        m = m << 1;
        if test.passes(values[RoleFile::MEMBERS * column + (LAST - x)]) {
            m = m | 1;
        }
    }
    m
}
