// The records of a usage log: three bytes each, user, resource and operation.
#![tactic(auto)]

ghost use Rattle.std.specs.Prelude.{length, get_or, cond, ◌≡◌, ◌+◌, ◌*◌, ◌<◌};
ghost use Rattle.files.specs.Denials.{of_record, denied_by};
ghost use Rattle.grant_grids.specs.Grid.{in_grid};
ghost use Rattle.role_record.specs.Cells.{grid_at};
ghost use Rattle.role_record.specs.Record.{in_sizes};

use role_record::Sizes;

// How many bytes a record has.
pub const BYTES: usize = 3;

fn number(byte: u8) -> usize
    ensures { result ≡ byte }
{
    byte as usize
}

// Whether record i is within the sizes.
pub fn within(log: &[u8], i: usize, sizes: Sizes) -> bool
    requires { 3 * i + 2 < length log.now }
    ensures { result ≡ of_record (in_sizes sizes) log.now i }
{
    let at = BYTES * i;
    let user = number(log[at]);
    let resource = number(log[at + 1]);
    let operation = number(log[at + 2]);
    sizes.has(user, resource, operation)
}

// 1 where a grid does not have what record i asks for, else 0.
pub fn denied(grid: &[u64], log: &[u8], i: usize) -> usize
    requires { (3 * i + 2 < length log.now)
        × (grid_at (get_or log.now (3 * i) 0) (get_or log.now (3 * i + 2) 0) < length grid.now) }
    ensures { result ≡ cond (denied_by (in_grid grid.now) log.now i) 1 0 }
{
    let at = BYTES * i;
    let user = number(log[at]);
    let resource = number(log[at + 1]);
    let operation = number(log[at + 2]);
    if grant_grids::has(grid, user, resource, operation) {
        return 0;
    }
    1
}
