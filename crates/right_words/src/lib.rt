// The words of a standing summary of rights, by user and operation: the resources that the roles grant. 16 words for a
// user, 1,024 for all.
#![tactic(auto)]

ghost use Rattle.std.specs.Prelude.{length, ◌≡◌, ◌^◌, ◌<◌};
ghost use Rattle.right_words.specs.Rights.{permitted_by, held_within, word_by, refreshed, rights_table};
ghost use Rattle.role_record.specs.Cells.{most_operations, row_cells, user_cells};
ghost use Rattle.role_record.specs.Record.{WithinLimits};

use role_record::{ByRole, ByRoleOperation, RoleFile, Sizes};

// What some roles are permitted under an operation, taken together. Most users hold few roles, and only those are looked
// at.
fn permitted(held: u64, permissions: &ByRoleOperation, operation: usize) -> u64
    requires { (held < 2 ^ 32) × (operation < most_operations) }
    ensures { result ≡ permitted_by held permissions.now operation }
{
    let mut all: u64 = 0;
    for k in sets::members(held) {
        all = sets::union(all, permissions[RoleFile::ROLES * operation + k]);
    }
    all
}

// The roles that a user holds: none for a user beyond the sizes.
fn held_within(holders: &ByRole, sizes: Sizes, user: usize) -> u64
    requires { WithinLimits sizes }
    ensures { result ≡ held_within sizes holders.now user }
{
    if user < sizes.users {
        return grant_values::roles_of(holders, sizes.roles, user);
    }
    0
}

// The resources that these roles grant under an operation: none for an operation beyond the sizes.
fn word(held: u64, permissions: &ByRoleOperation, sizes: Sizes, operation: usize) -> u64
    requires { (held < 2 ^ 32) × (operation < row_cells) × WithinLimits sizes }
    ensures { result ≡ word_by sizes held permissions.now operation }
{
    if operation < sizes.operations {
        return sets::meet(
            permitted(held, permissions, operation),
            sets::below(sizes.resources),
        );
    }
    0
}

// The 16 words of a user, whatever they held, and no others.
pub fn refresh<'a>(
    holders: &'a ByRole,
    permissions: &'a ByRoleOperation,
    sizes: Sizes,
    user: usize,
    table: &mut [u64],
)
    requires { WithinLimits sizes × (user < 64) × (length table.old ≡ user_cells) }
    ensures { table.new
        ≡ refreshed sizes holders.now permissions.now user table.old }
{
    let held = held_within(holders, sizes, user);
    for o in 0..RoleFile::OPERATIONS {
        table[RoleFile::OPERATIONS * user + o] = word(held, permissions, sizes, o);
    }
}

// All 1,024 words, whatever they held.
pub fn fill<'a>(
    holders: &'a ByRole,
    permissions: &'a ByRoleOperation,
    sizes: Sizes,
    table: &mut [u64],
)
    requires { WithinLimits sizes × (length table.old ≡ user_cells) }
    ensures { table.new ≡ rights_table sizes holders.now permissions.now }
{
    for u in 0..RoleFile::USERS {
        refresh(holders, permissions, sizes, u, table);
    }
}
