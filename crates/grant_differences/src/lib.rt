// Grids of sets of resources, by user and operation, compared: the first triple at which two differ, and whether one has just what a rule grants.
#![tactic(auto)]

ghost use Rattle.std.specs.Prelude.{length, not, ◌≡◌, ◌≤◌, ◌<◌};
ghost use Rattle.grant_blocks.specs.Rows.{rows_at, same_at, same_rows};
ghost use Rattle.grant_grids.specs.Grid.{in_grid, same_words, same_tables, grid_difference, difference_of};
ghost use Rattle.role_record.specs.Cells.{grid_cells};
ghost use Rattle.sets.specs.Tests.{iff};

use role_record::{ByMember, RoleFile};

// Whether two grids differ at a triple.
fn differ_at<'a>(
    a: &'a [u64],
    b: &'a [u64],
    user: usize,
    resource: usize,
    operation: usize,
    operations: usize,
) -> bool
    requires { (user < 64)
        × (operation < operations)
        × (operations ≤ 64)
        × (length a.now ≡ grid_cells operations)
        × (length b.now ≡ grid_cells operations) }
    ensures { result
        ≡ not
        (iff (in_grid a.now user resource operation)
        (in_grid b.now user resource operation)) }
{
    let at = RoleFile::USERS * operation + user;
    sets::has(a[at], resource) != sets::has(b[at], resource)
}

// Whether two tables have the same words. Every word is looked at, which takes no branch.
fn alike<'a>(a: &'a [u64], b: &'a [u64]) -> bool
    requires { length b.now ≡ length a.now }
    ensures { result ≡ same_tables a.now b.now (length a.now) }
{
    let mut differences: u64 = 0;
    for i in 0..a.len() {
        differences = differences | (a[i] ^ b[i]);
    }
    differences == 0
}

// Whether two grids have the same words for a user.
fn agree<'a>(a: &'a [u64], b: &'a [u64], user: usize, operations: usize) -> bool
    requires { (user < 64)
        × (operations ≤ 64)
        × (length a.now ≡ grid_cells operations)
        × (length b.now ≡ grid_cells operations) }
    ensures { result ≡ same_words a.now b.now user operations }
{
    let mut differences: u64 = 0;
    for o in 0..operations {
        differences = differences | (a[RoleFile::USERS * o + user] ^ b[RoleFile::USERS * o + user]);
    }
    differences == 0
}

// The first triple, by user, then resource, then operation, at which two grids differ.
pub fn first_difference<'a>(
    a: &'a [u64],
    b: &'a [u64],
    users: usize,
    resources: usize,
    operations: usize,
) -> Option<(usize, usize, usize)>
    requires { (users ≤ 64)
        × (operations ≤ 64)
        × (length a.now ≡ grid_cells operations)
        × (length b.now ≡ grid_cells operations) }
    ensures { result ≡ difference_of (grid_difference a.now b.now users resources operations) }
{
    // Most pairs of grids are the same.
    if alike(a, b) {
        return None;
    }
    'triples: loop {
        for u in 0..users {
            // Most users of two grids that are nearly the same need no look at their resources.
            if agree(a, b, u, operations) {
                continue;
            }
            for r in 0..resources {
                for o in 0..operations {
                    if differ_at(a, b, u, r, o, operations) {
                        break 'triples Some((u, r, o));
                    }
                }
            }
        }
        break 'triples None;
    }
}

// Whether a grid has these rows at an operation. Every word is looked at, which takes no branch.
fn rows_at<'a>(rows: &'a ByMember, operation: usize, operations: usize, grid: &'a [u64]) -> bool
    requires { (operation < operations) × (operations ≤ 64) × (length grid.now ≡ grid_cells operations) }
    ensures { result ≡ rows_at rows.now operation grid.now }
{
    let start = RoleFile::USERS * operation;
    let mut differences: u64 = 0;
    for u in 0..RoleFile::USERS {
        differences = differences | (rows[u] ^ grid[start + u]);
    }
    differences == 0
}

// Whether a grid has just what a rule grants at an operation: the rows if it is one of the rule's, and else nothing.
fn same_at<'a>(
    rows: &'a ByMember,
    acts: u64,
    operation: usize,
    operations: usize,
    grid: &'a [u64],
) -> bool
    requires { (operation < operations) × (operations ≤ 64) × (length grid.now ≡ grid_cells operations) }
    ensures { result ≡ same_at rows.now acts grid.now operation }
{
    if sets::has(acts, operation) {
        return rows_at(rows, operation, operations, grid);
    }
    let none = [0u64; RoleFile::MEMBERS];
    rows_at(&none, operation, operations, grid)
}

// Whether a grid has just what a rule grants.
pub fn same_rows<'a>(rows: &'a ByMember, acts: u64, operations: usize, grid: &'a [u64]) -> bool
    requires { (operations ≤ 64) × (length grid.now ≡ grid_cells operations) }
    ensures { result ≡ same_rows operations rows.now acts grid.now }
{
    for o in 0..operations {
        if !same_at(rows, acts, o, operations, grid) {
            return false;
        }
    }
    true
}
