// Which distinct values an atom joins, and words spread over members.
#![tactic(auto)]

ghost use Rattle.std.specs.Prelude.{length, ◌≡◌, ◌+◌, ◌*◌, ◌≤◌, ◌<◌};
ghost use Rattle.policy.specs.Rules.{form_of, linked};
ghost use Rattle.grant_joins.specs.Tables.{spread_of, joins, union_of};
ghost use Rattle.grant_joins.specs.Tables.{value_count};

use role_record::{ByPlaceMember, RoleFile};

// Joins a set to the words of some members of a block, which has 64 words.
pub fn spread(block: usize, members: u64, word: u64, out: &mut [u64])
    requires { 64 * block + 64 ≤ length out.old }
    ensures { out.new ≡ spread_of (length out.old) block members word out.old }
{
    for y in sets::members(members) {
        out[RoleFile::MEMBERS * block + y] = sets::union(out[RoleFile::MEMBERS * block + y], word);
    }
}

// How many distinct values a place has: nobody has the next.
pub fn number(having: &ByPlaceMember, place: usize) -> usize
    requires { place < 14 }
    ensures { result ≡ value_count having.now place }
{
    (0..RoleFile::MEMBERS)
        .position(|k| having[RoleFile::MEMBERS * place + k] == 0)
        .unwrap_or(RoleFile::MEMBERS)
}

// Whether an atom joins two values. Left says that the first is a set, right that the second is.
fn fits(left: bool, right: bool, v: u64, w: u64) -> bool
    ensures { result ≡ linked (form_of left right) v w }
{
    if left {
        if right {
            return sets::within(w, v);
        }
        // No set has a number above 63.
        return sets::has(v, w as usize);
    }
    if right {
        return false;
    }
    v == w
}

// The same, of the two values changed round if that is asked for.
fn joins(left: bool, right: bool, turned: bool, v: u64, w: u64) -> bool
    ensures { result ≡ joins left right turned v w }
{
    if turned {
        return fits(left, right, w, v);
    }
    fits(left, right, v, w)
}

// Who has, at a place, one of the first values that a value is joined with.
pub fn joined<'a>(
    distinct: &'a ByPlaceMember,
    having: &'a ByPlaceMember,
    place: usize,
    count: usize,
    left: bool,
    right: bool,
    turned: bool,
    v: u64,
) -> u64
    requires { (place < 14) × (count ≤ 64) }
    ensures { result ≡ union_of distinct.now having.now (joins left right turned v) place count }
{
    let mut m: u64 = 0;
    for l in 0..count {
        let word = having[RoleFile::MEMBERS * place + l];
        // Which values are joined cannot be foreseen, so there is a word to join either way.
        let found = if joins(
            left,
            right,
            turned,
            v,
            distinct[RoleFile::MEMBERS * place + l],
        ) {
            word
        } else {
            0
        };
        m = sets::union(m, found);
    }
    m
}
