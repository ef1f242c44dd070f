// Which parts the lines of a rule file list, and the first part that stands under no rule or several. Two tables, with a word for each
// role, say it: the lowest operations of the parts listed so far, and of those listed more than once.
#![tactic(auto)]

ghost use Rattle.std.specs.Prelude.{◌≡◌, ◌≤◌, ◌<◌};
ghost use Rattle.rule_listings.specs.Listed.{seen_after, again_after, once_in, stray_of};

use role_record::{ByRole, RoleFile};

// Notes that a line lists the part of a role with this class.
pub fn list<'a>(seen: &'a mut ByRole, again: &'a mut ByRole, role: usize, class: u64)
    requires { role < 32 }
    ensures { (seen.new ≡ seen_after seen.old role class)
        × (again.new ≡ again_after seen.old again.old role class) }
{
    let lead = sets::least(class);
    if sets::has(seen[role], lead) {
        again[role] = sets::with(again[role], lead);
    }
    seen[role] = sets::with(seen[role], lead);
}

// Whether the part of the role with this lowest operation is listed exactly once.
fn once<'a>(seen: &'a ByRole, again: &'a ByRole, role: usize, o: usize) -> bool
    requires { role < 32 }
    ensures { result ≡ once_in seen.now again.now role o }
{
    if sets::has(again[role], o) {
        return false;
    }
    sets::has(seen[role], o)
}

// The number of the first part that is not listed exactly once.
pub fn first_stray<'a>(f: &'a RoleFile, seen: &'a ByRole, again: &'a ByRole) -> Option<usize>
    requires { (f.now.roles ≤ 32) × (f.now.operations ≤ 16) }
    ensures { result
        ≡ stray_of f.now.holders f.now.permissions f.now.roles f.now.operations seen.now
        again.now }
{
    let mut number: usize = 0;
    // Role and operation in one loop, since parts are numbered by role, then lowest operation.
    for w in 0..RoleFile::OPERATIONS * f.roles {
        let role = w / RoleFile::OPERATIONS;
        let o = w % RoleFile::OPERATIONS;
        if !grant_parts::is_part(&f.holders, &f.permissions, f.operations, role, o) {
            continue;
        }
        if !once(seen, again, role, o) {
            return Some(number);
        }
        number += 1;
    }
    None
}
