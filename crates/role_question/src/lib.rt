// The role question: whether the roles of a role file grant a user an operation on a resource.
#![tactic(auto)]

ghost use Rattle.std.specs.Prelude.{◌≡◌, ◌&&◌, ◌≤◌, ◌<◌, get_or};
ghost use Rattle.files.specs.Cause.{answer_of};
ghost use Rattle.files.specs.Calls.{role_question};
ghost use Rattle.role_record.specs.Cells.{most_operations, permission_at};
ghost use Rattle.sets.specs.Sets.{bit};
ghost use Rattle.sets.specs.Tests.{any, up_to};

use files::Refusal;
use role_record::{ByRole, ByRoleOperation, RoleFile};

// Whether one number is in one set and another in another.
fn in_both(a: u64, x: usize, b: u64, y: usize) -> bool
    ensures { result ≡ (bit a x && bit b y) }
{
    if sets::has(a, x) {
        return sets::has(b, y);
    }
    false
}

// Whether a role that the user holds has the permission.
fn granted<'a>(
    holders: &'a ByRole,
    permissions: &'a ByRoleOperation,
    roles: usize,
    user: usize,
    resource: usize,
    operation: usize,
) -> bool
    requires { (roles ≤ 32) × (operation < most_operations) }
    ensures { result
        ≡ any
        (λ k.
        bit (get_or holders.now k 0) user
        && bit (get_or permissions.now (permission_at k operation) 0) resource)
        (up_to roles) }
{
    for k in 0..roles {
        if in_both(
            holders[k],
            user,
            permissions[RoleFile::ROLES * operation + k],
            resource,
        ) {
            return true;
        }
    }
    false
}

// Any numbers may be handed in: a number beyond the sizes is refused, after the file's own refusals.
pub fn ask(file: &[u8], user: usize, resource: usize, operation: usize) -> Result<bool, Refusal>
    ensures { answer_of result ≡ role_question 2 file.now user resource operation }
{
    let f = role_file::read(file)?;
    if !f.sizes().has(user, resource, operation) {
        return Err(Refusal::Beyond);
    }
    Ok(granted(
        &f.holders,
        &f.permissions,
        f.roles,
        user,
        resource,
        operation,
    ))
}
