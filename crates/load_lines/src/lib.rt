// The lines of a load, each made by a draw.
#![tactic(auto)]

ghost use Rattle.std.specs.Prelude.{[], ◌∷◌, ◌<◌, ◌≤◌};
ghost use Rattle.files.specs.Load.{value_line, assign_line, permit_line, senior_line};
ghost use Rattle.load_bytes.specs.Putting.{Put};
ghost use Rattle.load_lines.specs.DrawnLines.{line_of, Fits};

use files::role_byte;
use load_bytes::put;

// Runs of draws that make lines of one sort, a line a draw at most.
#[derive(Clone, Copy)]
pub enum Draws {
    // 03: the values of a side.
    Values(usize),
    // 05: the users of a role.
    Users(usize),
    // 06: the operations of a role on a resource.
    Operations(usize, usize),
    // 07: the seniors of a role, from the role behind it on.
    Seniors(usize),
}

// 03 with the value drawn.
fn value_line(side: usize, who: usize, x: u32, out: &mut [u8], at: usize) -> usize
    requires { (side < 256) × (who < 256) × (at ≤ 1000000) }
    ensures { Put (value_line side who x) out.old at out.new result }
{
    let bytes = [
        role_byte::GIVE_SINGLE as u8,
        side as u8,
        0,
        who as u8,
        (x % 8) as u8,
        0,
    ];
    put(&bytes, out, at)
}

// A command with two operands.
fn pair_line(command: usize, a: usize, b: usize, out: &mut [u8], at: usize) -> usize
    requires { (command < 256) × (a < 256) × (b < 256) × (at ≤ 1000000) }
    ensures { Put (command ∷ a ∷ b ∷ []) out.old at out.new result }
{
    let bytes = [command as u8, a as u8, b as u8];
    put(&bytes, out, at)
}

// 05 if the draw says so.
fn user_line(role: usize, user: usize, x: u32, out: &mut [u8], at: usize) -> usize
    requires { (role < 256) × (user < 256) × (at ≤ 1000000) }
    ensures { Put (assign_line role user x) out.old at out.new result }
{
    if x % 4 == 0 {
        return pair_line(role_byte::ASSIGN, role, user, out, at);
    }
    at
}

// 06 if the draw says so.
fn operation_line(
    role: usize,
    resource: usize,
    operation: usize,
    x: u32,
    out: &mut [u8],
    at: usize,
) -> usize
    requires { (role < 256) × (resource < 256) × (operation < 256) × (at ≤ 1000000) }
    ensures { Put (permit_line role resource operation x) out.old at out.new result }
{
    if x % 2 == 0 {
        let bytes = [
            role_byte::PERMIT as u8,
            role as u8,
            resource as u8,
            operation as u8,
        ];
        return put(&bytes, out, at);
    }
    at
}

// 07 if the draw says so.
fn senior_line(junior: usize, senior: usize, x: u32, out: &mut [u8], at: usize) -> usize
    requires { (junior < 256) × (senior < 256) × (at ≤ 1000000) }
    ensures { Put (senior_line junior senior x) out.old at out.new result }
{
    if x % 16 == 0 {
        return pair_line(role_byte::LINE, junior, senior, out, at);
    }
    at
}

// The line that a draw makes in turn i of its run.
pub fn line(draws: Draws, i: usize, x: u32, out: &mut [u8], at: usize) -> usize
    requires { Fits draws i × (at ≤ 1000000) }
    ensures { Put (line_of draws i x) out.old at out.new result }
{
    match draws {
        Draws::Values(side) => value_line(side, i, x, out, at),
        Draws::Users(role) => user_line(role, i, x, out, at),
        Draws::Operations(role, resource) => operation_line(role, resource, i, x, out, at),
        Draws::Seniors(junior) => senior_line(junior, junior + 1 + i, x, out, at),
    }
}
