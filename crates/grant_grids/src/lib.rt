// Grids: which resources a user may act upon, by operation. A grid is made for a number of operations, and has a word of each user for
// each of them.
#![tactic(auto)]

ghost use Rattle.std.specs.Prelude.{length, ◌≡◌, ◌≤◌, ◌<◌};
ghost use Rattle.grant_grids.specs.Grid.{grid_of, in_grid, granted_by};
ghost use Rattle.grant_grids.specs.Updates.{added_column, added_part};
ghost use Rattle.role_record.specs.Cells.{most_operations, grid_at, grid_cells};

use role_record::{ByRole, ByRoleOperation, RoleFile};

// Whether a grid has a triple.
pub fn has(grid: &[u64], user: usize, resource: usize, operation: usize) -> bool
    requires { grid_at user operation < length grid.now }
    ensures { result ≡ in_grid grid.now user resource operation }
{
    sets::has(grid[RoleFile::USERS * operation + user], resource)
}

// Joins, at one operation, the resources that a role is permitted to the word of each user who holds it.
fn add_column(
    holding: u64,
    permissions: &ByRoleOperation,
    role: usize,
    operation: usize,
    operations: usize,
    grid: &mut [u64],
)
    requires { (role < 32)
        × (operation < operations)
        × (operations ≤ most_operations)
        × (length grid.old ≡ grid_cells operations) }
    ensures { grid.new
        ≡ added_column operations operation permissions.now role holding grid.old }
{
    let resources = permissions[RoleFile::ROLES * operation + role];
    let mut rest = holding;
    while 0 < rest {
        let at = RoleFile::USERS * operation + sets::least(rest);
        grid[at] = sets::union(grid[at], resources);
        rest = sets::without_least(rest);
    }
}

// Joins a part's block to a grid: for each holder of the role and each operation of the class, the resources of that operation.
pub fn add_part(
    holding: u64,
    permissions: &ByRoleOperation,
    role: usize,
    class: u64,
    operations: usize,
    grid: &mut [u64],
)
    requires { (role < 32) × (operations ≤ most_operations) × (length grid.old ≡ grid_cells operations) }
    ensures { grid.new ≡ added_part operations holding permissions.now role class grid.old }
{
    for o in 0..operations {
        // Most classes have few operations, and the words of the others stay as they are.
        if sets::has(class, o) {
            add_column(holding, permissions, role, o, operations, grid);
        }
    }
}

// The grid of what the roles grant, whatever the table held. Role by role, since most users hold few roles.
pub fn roles_grid<'a>(
    holders: &'a ByRole,
    permissions: &'a ByRoleOperation,
    roles: usize,
    operations: usize,
    out: &mut [u64],
)
    requires { (roles ≤ 32) × (operations ≤ most_operations) × (length out.old ≡ grid_cells operations) }
    ensures { out.new
        ≡ grid_of operations (granted_by holders.now permissions.now roles) }
{
    role_record::clear(out);
    let all = sets::below(operations);
    for k in 0..roles {
        add_part(holders[k], permissions, k, all, operations, out);
    }
}
