// Who is senior to whom, and who holds which role. A table has a word for each of the 32 roles, and a word is a set: of roles, or of
// users.
#![tactic(auto)]

ghost use Rattle.std.specs.Prelude.{length, get_or, ◌&&◌, ◌||◌, ◌≡◌, ◌≤◌, ◌<◌};
ghost use Rattle.sets.specs.Sets.{bit, mask_of};
ghost use Rattle.sets.specs.Tests.{any, up_to};
ghost use Rattle.role_seniority.specs.Closure.{closed, passed, held_by, held_table};

use role_record::{ByRole, RoleFile};

// The seniors of a role, from those it has with the roles below n between them and those that role n has so: role n may stand between
// too.
fn through(own: u64, others: u64, n: usize) -> u64
    ensures { result ≡ mask_of 64 (λ j. bit own j || (bit own n && bit others j)) }
{
    if sets::has(own, n) {
        sets::union(own, others)
    } else {
        own
    }
}

// One round: role n may stand between two others too.
fn pass(t: &mut ByRole, n: usize)
    requires { n < 32 }
    ensures { t.new ≡ passed t.old n }
{
    let others = t[n];
    for i in 0..RoleFile::ROLES {
        t[i] = through(t[i], others, n);
    }
}

// All seniors from the direct ones: j is in t[i] where role j is a direct senior of role i, and afterwards where it is a senior.
pub fn close(t: &mut ByRole, roles: usize)
    requires { roles ≤ 32 }
    ensures { t.new ≡ closed t.old roles }
{
    for n in 0..roles {
        pass(t, n);
    }
}

// Whether a role is its own senior.
pub fn circular(t: &ByRole, roles: usize) -> bool
    requires { roles ≤ 32 }
    ensures { result ≡ any (λ k. bit (get_or t.now k 0) k) (up_to roles) }
{
    (0..roles).any(|k| sets::has(t[k], k))
}

// The users assigned to a role, and those assigned to its seniors.
fn held(assigned: &ByRole, own: u64, seniors: u64, roles: usize) -> u64
    requires { roles ≤ 32 }
    ensures { result ≡ held_by assigned.now own seniors roles }
{
    let mut users = own;
    for j in 0..roles {
        if sets::has(seniors, j) {
            users = sets::union(users, assigned[j]);
        }
    }
    users
}

// The holders of each role, the users assigned to it or to a senior, whatever the table held.
pub fn holders<'a>(assigned: &'a ByRole, seniors: &'a ByRole, roles: usize, out: &mut ByRole)
    requires { roles ≤ 32 }
    ensures { out.new ≡ held_table assigned.now seniors.now roles }
{
    for k in 0..RoleFile::ROLES {
        out[k] = held(assigned, assigned[k], seniors[k], roles);
    }
}
