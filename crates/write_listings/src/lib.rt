// The parts of a rule as bytes, at the front of the slice that is lent.
#![tactic(auto)]

ghost use Rattle.std.specs.Prelude.{length, ◌≡◌, ◌≤◌, ◌<◌};
ghost use Rattle.mine_groups.specs.Scratch.{all_parts, Stands};
ghost use Rattle.write_lines.specs.Writing.{wrote};
ghost use Rattle.write_theory.specs.RuleTable.{role_bytes_in, part_bytes_in};
ghost use Rattle.write_roles.specs.GroupRoles.{roles_for};

use mine_parts::Starts;
use role_record::{ByMember, ByRoleOperation, RoleFile};
use write_theory::Outline;

// The lines 28 of a role.
fn put_role<'a>(
    permissions: &'a ByRoleOperation,
    operations: usize,
    starts: &'a Starts,
    scratch: &'a [u64],
    head: usize,
    role: usize,
    list: &mut ByMember,
    out: &mut [u8],
) -> usize
    requires operations_bound { (operations ≤ 16) × Stands scratch.now starts.now × (head < all_parts starts.now) × (role < 32) }
    requires role_in_bounds { length (role_bytes_in permissions.now operations starts.now scratch.now head role) ≤ length out.old }
    ensures { (result
        ≡ length (role_bytes_in permissions.now operations starts.now scratch.now head role))
        × (out.new
        ≡ wrote
        (role_bytes_in permissions.now operations starts.now scratch.now head role)
        out.old) }
{
    let count = write_parts::list_classes(
        permissions,
        operations,
        starts,
        scratch,
        head,
        role,
        list,
    );
    write_lines::put_classes(list, count, role, out)
}

// The lines 28. Only the roles that have a part in the group are visited.
pub fn put_parts<'a>(
    permissions: &'a ByRoleOperation,
    operations: usize,
    starts: &'a Starts,
    scratch: &'a [u64],
    rule: Outline,
    out: &mut [u8],
) -> usize
    requires operations_bound { (operations ≤ 16) × Stands scratch.now starts.now × (rule.head < all_parts starts.now)
        × (rule.roles ≡ roles_for starts.now scratch.now
        rule.head) }
    requires head_in_bounds { length (part_bytes_in permissions.now operations starts.now scratch.now rule.head) ≤ length out.old }
    ensures { (result
        ≡ length
        (part_bytes_in permissions.now operations starts.now scratch.now rule.head))
        × (out.new
        ≡ wrote
        (part_bytes_in permissions.now operations starts.now scratch.now rule.head)
        out.old) }
{
    let mut at: usize = 0;
    // One list for all roles, whatever it holds.
    let mut list = [0u64; RoleFile::MEMBERS];
    for k in sets::members(rule.roles) {
        at += put_role(
            permissions,
            operations,
            starts,
            scratch,
            rule.head,
            k,
            &mut list,
            &mut out[at..],
        );
    }
    at
}
