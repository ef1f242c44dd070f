// The window of a usage log in which most records are denied, in one pass: the count is carried along from record to record.
#![tactic(auto)]

ghost use Rattle.std.specs.Prelude.{length, get_or, ◌≡◌, ℕ, ◌+◌, ◌*◌, ◌-◌, ◌≤◌, ◌<◌};
ghost use Rattle.files.specs.Denials.{denied_by};
ghost use Rattle.grant_grids.specs.Grid.{in_grid};
ghost use Rattle.log_windows.specs.Counting.{leaving_of, counted_of};
ghost use Rattle.role_record.specs.Cells.{grid_at, grid_cells};

use files::Refusal;
use role_record::Sizes;

// The most denials in a window, and the lowest record from which a window has so many.
#[derive(Clone, Copy, Debug, PartialEq, Eq)]
pub struct Worst {
    pub most: usize,
    pub start: usize,
}

// 1 where a denied record leaves the window when record i comes, else 0.
fn leaving(grid: &[u64], log: &[u8], window: usize, i: usize) -> usize
    requires { (3 * i + 2 < length log.now)
        × (grid_at (get_or log.now (3 * (i - window)) 0) (get_or log.now (3 * (i - window) + 2) 0) < length grid.now) }
    ensures { result ≡ leaving_of (denied_by (in_grid grid.now) log.now) window i }
{
    if i < window {
        return 0;
    }
    log_records::denied(grid, log, i - window)
}

// Where the window starts that ends behind so many records: at 0 while they are no more than it has.
fn start_of(records: usize, window: usize) -> usize
    ensures { result ≡ records - window }
{
    if records < window {
        return 0;
    }
    records - window
}

// By a grid of what is granted. While the log's first window is not full its count is that of a part of it, no more than the whole has, and
// both start at 0; so no window needs a case of its own, and a log shorter than one is the last of these parts.
pub fn count(grid: &[u64], sizes: Sizes, log: &[u8], window: usize) -> Result<Worst, Refusal>
    requires { (sizes.users ≤ 64) × (length grid.now ≡ grid_cells sizes.operations) }
    ensures { result ≡ counted_of (in_grid grid.now) sizes log.now window }
{
    let records = log.len() / log_records::BYTES;
    let mut counted: usize = 0;
    let mut most: usize = 0;
    let mut start: usize = 0;
    for i in 0..records {
        if !log_records::within(log, i, sizes) {
            return Err(Refusal::Beyond);
        }
        counted = counted + log_records::denied(grid, log, i);
        counted = counted - leaving(grid, log, window, i);
        let first = start_of(i + 1, window);
        if most < counted {
            most = counted;
            start = first;
        }
    }
    Ok(Worst { most, start })
}
