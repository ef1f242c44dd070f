// A load put into lent memory as far as it goes.
#![tactic(auto)]

ghost use Rattle.std.specs.Prelude.{◌≤◌};
ghost use Rattle.files.specs.Load.{load_run, load_bytes};
ghost use Rattle.load_bytes.specs.Putting.{Put};
ghost use Rattle.load_draws.specs.Runs.{Ran};

use files::role_byte;
use load_bytes::put;
use load_draws::{Drawn, draw_lines};
use load_lines::Draws;
use load_roles::{role_lines, senior_lines};
use role_record::Sizes;

// All lines that are drawn, as far as there is memory.
fn drawn_lines(sizes: Sizes, start: Drawn, out: &mut [u8]) -> Drawn
    requires { (sizes.users ≤ 64)
        × (sizes.resources ≤ 64)
        × (sizes.operations ≤ 16)
        × (sizes.roles ≤ 32)
        × (start.at ≤ 1000) }
    ensures { Ran (load_run sizes.users sizes.resources sizes.operations sizes.roles) start out.old
        out.new result }
{
    let a = draw_lines(Draws::Values(0), sizes.users, start, out);
    let b = draw_lines(Draws::Values(1), sizes.resources, a, out);
    let c = role_lines(
        sizes.users,
        sizes.resources,
        sizes.operations,
        sizes.roles,
        b,
        out,
    );
    senior_lines(sizes.roles, c, out)
}

// The file, as far as there is memory, and its length.
pub fn write(seed: u32, sizes: Sizes, out: &mut [u8]) -> usize
    requires { (sizes.users ≤ 64) × (sizes.resources ≤ 64) × (sizes.operations ≤ 16) × (sizes.roles ≤ 32) }
    ensures { Put (load_bytes seed sizes.users sizes.resources sizes.operations sizes.roles) out.old 0
        out.new result }
{
    let opening = [
        role_byte::SIZES as u8,
        sizes.users as u8,
        sizes.resources as u8,
        sizes.operations as u8,
        sizes.roles as u8,
        role_byte::DECLARE as u8,
        0,
        0,
        role_byte::DECLARE as u8,
        1,
        0,
    ];
    let at = put(&opening, out, 0);
    let d = drawn_lines(sizes, Drawn { at, last: seed }, out);
    let end = [role_byte::END as u8];
    put(&end, out, d.at)
}
