// The roles that have a part in each group, found in one pass over the parts in scratch memory.
#![tactic(auto)]

ghost use Rattle.std.specs.Prelude.{get_or, ◌≡◌, ℕ, ◌≤◌, ◌<◌};
ghost use Rattle.mine_groups.specs.Scratch.{all_parts};
ghost use Rattle.mine_parts.specs.Layout.{most_parts, room_in};
ghost use Rattle.write_roles.specs.GroupRoles.{roles_before, RolesTable};

use mine_parts::{ByPart, Starts};
use role_record::RoleFile;

// The table of no role for so many groups, whatever it held.
fn clear_roles(parts: usize, out: &mut ByPart)
    requires { parts ≤ most_parts }
    ensures { (i : ℕ) → i < parts → get_or out.new i 0 ≡ 0 }
{
    for i in 0..parts {
        out[i] = 0;
    }
}

// Joins the role of each part to those of its group.
fn mark_roles(scratch: &[u64], parts: usize, out: &mut ByPart)
    requires { (parts ≤ room_in scratch.now)
        × ((i : ℕ) → i < parts → get_or out.old i 0 ≡ 0) }
    ensures { (i : ℕ) → i < parts → get_or out.new i 0 ≡ roles_before scratch.now parts i }
{
    for i in 0..parts {
        let head = mine_parts::head_at(scratch, i);
        if head < parts {
            out[head] = sets::with(out[head], mine_parts::role_at(scratch, i));
        }
    }
}

// The roles that have a part in each group, whatever the table held, found in one pass over the parts: so that writing and measuring look at
// no others.
pub fn roles_of_groups(scratch: &[u64], starts: &Starts, out: &mut ByPart)
    requires { all_parts starts.now ≤ room_in scratch.now }
    ensures { RolesTable starts.now scratch.now out.new }
{
    let parts = starts[RoleFile::ROLES];
    clear_roles(parts, out);
    mark_roles(scratch, parts, out);
}
