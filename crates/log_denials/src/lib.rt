// Denials in a usage log: the most records that the rules of a rule file, read beside a role file, deny in any window of neighbouring ones.
#![tactic(auto)]

ghost use Rattle.std.specs.Prelude.{leb, length, ◌&&◌, ◌≡◌, ◌≤◌};
ghost use Rattle.files.specs.Answer.{map_answer};
ghost use Rattle.files.specs.Cause.{answer_of};
ghost use Rattle.files.specs.Denials.{denial_answer};
ghost use Rattle.log_windows.specs.Counting.{worst_of};
ghost use Rattle.role_record.specs.Cells.{most_operations, grid_cells};

use files::Refusal;
use log_windows::Worst;
use role_record::RoleFile;

// A window has no more records than this, and one at least.
const MOST: usize = 64;

fn fits(window: usize) -> bool
    ensures { result ≡ (leb 1 window && leb window 64) }
{
    if window == 0 {
        return false;
    }
    window <= MOST
}

// With two tables for grids, whatever they hold. The grid of the rules is that which reading leaves in the second.
fn denials_in(
    file: &[u8],
    rules: &[u8],
    log: &[u8],
    window: usize,
    listed: &mut [u64],
    grid: &mut [u64],
) -> Result<Worst, Refusal>
    requires { (grid_cells most_operations ≤ length listed.old) × (grid_cells most_operations ≤ length grid.old) }
    ensures { answer_of result
        ≡ map_answer worst_of (denial_answer 2 file.now rules.now log.now window) }
{
    let b = rule_file::read_into(file, rules, listed, grid)?;
    if !fits(window) {
        return Err(Refusal::WrongWindow);
    }
    if log.len() % log_records::BYTES != 0 {
        return Err(Refusal::RaggedLog);
    }
    let words = RoleFile::USERS * b.file.operations;
    log_windows::count(&grid[0..words], b.file.sizes(), log, window)
}

// Any window and any log may be handed in: what is refused of them is refused after both files.
pub fn denials(file: &[u8], rules: &[u8], log: &[u8], window: usize) -> Result<Worst, Refusal>
    ensures { answer_of result
        ≡ map_answer worst_of (denial_answer 2 file.now rules.now log.now window) }
{
    let mut listed = [0u64; RoleFile::USERS * RoleFile::OPERATIONS];
    let mut grid = [0u64; RoleFile::USERS * RoleFile::OPERATIONS];
    denials_in(file, rules, log, window, &mut listed, &mut grid)
}
