// Classes and parts of a role, read off the loaded role file: the operations that have the same resources as one, and which operations are
// the lowest of a part. The word of a role and an operation stands in their cell.
#![tactic(auto)]

ghost use Rattle.std.specs.Prelude.{◌≡◌, ◌≤◌, ◌<◌};
ghost use Rattle.role_record.specs.Cells.{most_operations};
ghost use Rattle.grant_parts.specs.Parts.{class_row, is_first, is_part_in};

use role_record::{ByRole, ByRoleOperation, RoleFile};

// The operations of a role that have the same resources as operation o.
pub fn class_of(permissions: &ByRoleOperation, role: usize, operations: usize, o: usize) -> u64
    requires { (role < 32) × (operations ≤ 16) × (o < most_operations) }
    ensures { result ≡ class_row permissions.now role operations o }
{
    let row = permissions[RoleFile::ROLES * o + role];
    sets::those(
        operations,
        |q| permissions[RoleFile::ROLES * q + role] == row,
    )
}

// Whether no operation of a role before operation o has the same resources.
fn is_first(permissions: &ByRoleOperation, role: usize, o: usize) -> bool
    requires { (role < 32) × (o < most_operations) }
    ensures { result ≡ is_first permissions.now role o }
{
    let row = permissions[RoleFile::ROLES * o + role];
    !(0..o).any(|q| permissions[RoleFile::ROLES * q + role] == row)
}

// Whether operation o is the lowest of a part of the role.
pub fn is_part<'a>(
    holders: &'a ByRole,
    permissions: &'a ByRoleOperation,
    operations: usize,
    role: usize,
    o: usize,
) -> bool
    requires { (role < 32) × (o < most_operations) }
    ensures { result ≡ is_part_in holders.now permissions.now operations role o }
{
    if operations <= o {
        return false;
    }
    if holders[role] == 0 {
        return false;
    }
    if permissions[RoleFile::ROLES * o + role] == 0 {
        return false;
    }
    is_first(permissions, role, o)
}
