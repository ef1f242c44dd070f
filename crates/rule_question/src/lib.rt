// The rule question: whether some rule of a rule file, read beside a role file, grants a user an operation on a resource.
#![tactic(auto)]

ghost use Rattle.std.specs.Prelude.{length, ◌≡◌, ◌≤◌};
ghost use Rattle.files.specs.Calls.{rule_question};
ghost use Rattle.files.specs.Cause.{answer_of};
ghost use Rattle.role_record.specs.Cells.{most_operations, grid_cells};

use files::Refusal;
use role_record::RoleFile;

// With two tables for grids, whatever they hold.
fn ask_in(
    file: &[u8],
    rules: &[u8],
    user: usize,
    resource: usize,
    operation: usize,
    listed: &mut [u64],
    grid: &mut [u64],
) -> Result<bool, Refusal>
    requires { (grid_cells most_operations ≤ length listed.old) × (grid_cells most_operations ≤ length grid.old) }
    ensures { answer_of result ≡ rule_question 2 file.now rules.now user resource operation }
{
    let b = rule_file::read_into(file, rules, listed, grid)?;
    if !b.file.sizes().has(user, resource, operation) {
        return Err(Refusal::Beyond);
    }
    let words = RoleFile::USERS * b.file.operations;
    Ok(grant_grids::has(&grid[0..words], user, resource, operation))
}

// Any numbers may be handed in: a number beyond the sizes is refused, after the refusals of both files.
pub fn ask(
    file: &[u8],
    rules: &[u8],
    user: usize,
    resource: usize,
    operation: usize,
) -> Result<bool, Refusal>
    ensures { answer_of result ≡ rule_question 2 file.now rules.now user resource operation }
{
    let mut listed = [0u64; RoleFile::USERS * RoleFile::OPERATIONS];
    let mut grid = [0u64; RoleFile::USERS * RoleFile::OPERATIONS];
    ask_in(
        file,
        rules,
        user,
        resource,
        operation,
        &mut listed,
        &mut grid,
    )
}
