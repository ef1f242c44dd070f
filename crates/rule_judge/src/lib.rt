// The judge of rule files: whether a rule file, read beside a role file, grants what the roles do, rule by rule and part by part.
#![tactic(auto)]

ghost use Rattle.std.specs.Prelude.{length, ◌≡◌, ◌≤◌};
ghost use Rattle.files.specs.Answer.{map_answer};
ghost use Rattle.files.specs.Calls.{judge};
ghost use Rattle.files.specs.Cause.{answer_of};
ghost use Rattle.role_record.specs.Cells.{most_operations, grid_cells};
ghost use Rattle.rule_judge.specs.Judgement.{verdict_of};

use files::Refusal;
use role_record::RoleFile;

#[derive(Clone, Copy, Debug, PartialEq, Eq)]
pub enum Verdict {
    Sound,
    // User, resource and operation of the first triple at which roles and rules differ.
    Differ(usize, usize, usize),
    // The first rule that grants other than its parts.
    StrayRule(usize),
    // The first part that stands under no rule or several.
    StrayPart(usize),
}

// With two tables for grids, whatever they hold: the second comes to have what the rules grant, and the first, once they are read, what the roles do.
fn judge_in(
    file: &[u8],
    rules: &[u8],
    listed: &mut [u64],
    grid: &mut [u64],
) -> Result<Verdict, Refusal>
    requires { (grid_cells most_operations ≤ length listed.old) × (grid_cells most_operations ≤ length grid.old) }
    ensures { answer_of result ≡ map_answer verdict_of (judge 2 file.now rules.now) }
{
    let b = rule_file::read_into(file, rules, listed, grid)?;
    let f = b.file;
    let words = RoleFile::USERS * f.operations;
    grant_grids::roles_grid(
        &f.holders,
        &f.permissions,
        f.roles,
        f.operations,
        &mut listed[0..words],
    );
    if let Some((user, resource, operation)) = grant_differences::first_difference(
        &listed[0..words],
        &grid[0..words],
        f.users,
        f.resources,
        f.operations,
    ) {
        return Ok(Verdict::Differ(user, resource, operation));
    }
    if let Some(rule) = b.stray {
        return Ok(Verdict::StrayRule(rule));
    }
    match rule_listings::first_stray(&f, &b.seen, &b.again) {
        Some(part) => Ok(Verdict::StrayPart(part)),
        None => Ok(Verdict::Sound),
    }
}

pub fn judge(file: &[u8], rules: &[u8]) -> Result<Verdict, Refusal>
    ensures { answer_of result ≡ map_answer verdict_of (judge 2 file.now rules.now) }
{
    let mut listed = [0u64; RoleFile::USERS * RoleFile::OPERATIONS];
    let mut grid = [0u64; RoleFile::USERS * RoleFile::OPERATIONS];
    judge_in(file, rules, &mut listed, &mut grid)
}
