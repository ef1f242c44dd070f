// What rules grant together, kept as a grid of sets of resources, by user and operation, while they are read. A rule has no grid of its own:
// its rows, by user the resources that it leaves the user, and its operations say what it grants.
#![tactic(auto)]

ghost use Rattle.std.specs.Prelude.{length, ◌≡◌, ◌≤◌, ◌<◌};
ghost use Rattle.role_record.specs.Cells.{grid_cells};
ghost use Rattle.grant_blocks.specs.Rows.{added_row, added_rows};

use role_record::{ByMember, RoleFile};

// Joins each user's row to the user's word of an operation.
fn add_row(rows: &ByMember, operation: usize, operations: usize, grid: &mut [u64])
    requires { (operation < operations) × (operations ≤ 64) × (length grid.old ≡ grid_cells operations) }
    ensures { grid.new ≡ added_row operations rows.now operation grid.old }
{
    let start = RoleFile::USERS * operation;
    for u in 0..RoleFile::USERS {
        grid[start + u] = sets::union(grid[start + u], rows[u]);
    }
}

// Joins what a rule grants to a grid: at each of its operations the rows. Most rules have few operations.
pub fn add_rows(rows: &ByMember, acts: u64, operations: usize, grid: &mut [u64])
    requires { (operations ≤ 64) × (length grid.old ≡ grid_cells operations) }
    ensures { grid.new ≡ added_rows operations rows.now acts grid.old }
{
    for o in 0..operations {
        if sets::has(acts, o) {
            add_row(rows, o, operations, grid);
        }
    }
}
