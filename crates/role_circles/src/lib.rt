// The shortest circle of seniority lines, sought with words as sets of roles. Of role x the table of lines has the set of its seniors by
// a line.
#![tactic(auto)]

ghost use Rattle.std.specs.Prelude.{eqb, ltb, length, get_or, drop, not, ◌++◌, ◌≡◌, suc, ◌≤◌, ◌<◌};
ghost use Rattle.policy.specs.CircleSearch.{leads_back, circle_at};
ghost use Rattle.role_circles.specs.BackWords.{line_in, next_in, back_word, IsShortest};
ghost use Rattle.role_record.specs.Record.{table_of};
ghost use Rattle.sets.specs.Lowest.{lowest_from};
ghost use Rattle.sets.specs.Sets.{bit, mask_of};
ghost use Rattle.sets.specs.Tests.{Is};

use role_record::{ByRole, RoleFile};

// Where a shortest circle has its lowest role, and how many roles more it has; as many as there are roles if there is no circle.
#[derive(Clone, Copy)]
pub struct Found {
    pub low: usize,
    pub more: usize,
}

// The roles that may stand behind role x: its seniors by a line, above the lowest role of the circle, from which the rest is possible.
fn next(lines: &ByRole, low: usize, back: u64, x: usize) -> u64
    requires { (low < 32) × (x < 32) }
    ensures { result ≡ next_in lines.now low back x }
{
    sets::without(sets::meet(lines[x], back), sets::below(low + 1))
}

// The least role that may stand behind role x; 64 if none may.
fn least_next(lines: &ByRole, low: usize, back: u64, x: usize) -> usize
    requires { (low < 32) × (x < 32) }
    ensures { result ≡ lowest_from (bit (next_in lines.now low back x)) 0 64 }
{
    sets::least(next(lines, low, back, x))
}

// The roles that have a line to a role.
fn lead_at_once(lines: &ByRole, roles: usize, low: usize) -> u64
    requires { roles ≤ 32 }
    ensures { result ≡ back_word lines.now roles low 0 }
{
    let mut word: u64 = 0;
    for x in 0..roles {
        if sets::has(lines[x], low) {
            word = sets::with(word, x);
        }
    }
    word
}

// The roles from which lines lead back through one role more than from those of a set.
fn lead_by_one_more(lines: &ByRole, roles: usize, low: usize, back: u64) -> u64
    requires { (roles ≤ 32) × (low < 32) }
    ensures { result ≡ mask_of roles (λ x. not (eqb (next_in lines.now low back x) 0)) }
{
    let mut word: u64 = 0;
    for x in 0..roles {
        if next(lines, low, back, x) != 0 {
            word = sets::with(word, x);
        }
    }
    word
}

// For each number of roles between: the roles from which lines lead back to a role through so many above it, whatever the table held.
fn back_words(lines: &ByRole, roles: usize, low: usize, out: &mut ByRole)
    requires { (roles ≤ 32) × (low < 32) }
    ensures { out.new ≡ table_of 32 (back_word lines.now roles low) }
{
    let mut word = lead_at_once(lines, roles, low);
    for m in 0..RoleFile::ROLES {
        out[m] = word;
        word = lead_by_one_more(lines, roles, low, word);
    }
}

// The fewest roles beside a role with which it leads back to itself, if these are fewer than so many; else so many.
fn fewest(back: &ByRole, low: usize, most: usize) -> usize
    requires { most ≤ 32 }
    ensures { result ≡ lowest_from (λ m. bit (get_or back.now m 0) low) 0 most }
{
    for m in 0..most {
        if sets::has(back[m], low) {
            return m;
        }
    }
    most
}

// Each role is tried as the lowest of a circle, and only one with fewer roles than the best before it is better: so of those as short the
// one with the lowest role stays.
pub fn shortest(lines: &ByRole, roles: usize) -> Found
    requires { roles ≤ 32 }
    ensures { IsShortest lines.now roles result.low result.more }
{
    let mut back = [0u64; RoleFile::ROLES];
    let mut low: usize = 0;
    let mut more = roles;
    for a in 0..roles {
        back_words(lines, roles, a, &mut back);
        let m = fewest(&back, a, more);
        if m < more {
            low = a;
            more = m;
        }
    }
    Found { low, more }
}

// Writes a circle from its lowest role on, one byte a role: behind each the least that may stand there. What stands behind the circle
// stays.
pub fn write(lines: &ByRole, roles: usize, low: usize, more: usize, out: &mut [u8])
    requires { (roles ≤ 32)
        × (low < roles)
        × (more < roles)
        × (more < length out.old)
        × Is (leads_back (line_in lines.now) roles low more low) }
    ensures { out.new
        ≡ circle_at (line_in lines.now) roles low more ++ drop (suc more) out.old }
{
    let mut back = [0u64; RoleFile::ROLES];
    back_words(lines, roles, low, &mut back);
    out[0] = low as u8;
    let mut x = low;
    for i in 0..more {
        x = least_next(lines, low, back[more - 1 - i], x);
        out[i + 1] = x as u8;
    }
}
