// The lines of a load's roles: users and permissions of each, and then the seniors of each.
#![tactic(auto)]

ghost use Rattle.std.specs.Prelude.{◌<◌, ◌≤◌};
ghost use Rattle.files.specs.Load.{times, permit_run, role_run, senior_run};
ghost use Rattle.load_draws.specs.Runs.{Ran};

use load_draws::{Drawn, draw_lines};
use load_lines::Draws;

// The permissions of a role, resource by resource.
fn permission_lines(
    role: usize,
    resources: usize,
    operations: usize,
    start: Drawn,
    out: &mut [u8],
) -> Drawn
    requires { (role < 32) × (resources ≤ 64) × (operations ≤ 16) × (start.at ≤ 800000) }
    ensures { Ran (permit_run resources operations role) start out.old out.new result }
{
    let mut d = start;
    for resource in 0..resources {
        d = draw_lines(Draws::Operations(role, resource), operations, d, out);
    }
    d
}

// The users of a role, and then its permissions.
fn lines_of(
    role: usize,
    users: usize,
    resources: usize,
    operations: usize,
    start: Drawn,
    out: &mut [u8],
) -> Drawn
    requires { (role < 32) × (users ≤ 64) × (resources ≤ 64) × (operations ≤ 16) × (start.at ≤ 700000) }
    ensures { Ran (role_run users resources operations role) start out.old out.new result }
{
    let d = draw_lines(Draws::Users(role), users, start, out);
    permission_lines(role, resources, operations, d, out)
}

// The users and permissions of every role.
pub fn role_lines(
    users: usize,
    resources: usize,
    operations: usize,
    roles: usize,
    start: Drawn,
    out: &mut [u8],
) -> Drawn
    requires { (users ≤ 64) × (resources ≤ 64) × (operations ≤ 16) × (roles ≤ 32) × (start.at ≤ 400000) }
    ensures { Ran (times roles (role_run users resources operations)) start out.old out.new result }
{
    let mut d = start;
    for role in 0..roles {
        d = lines_of(role, users, resources, operations, d, out);
    }
    d
}

// The seniors of every role: those behind it.
pub fn senior_lines(roles: usize, start: Drawn, out: &mut [u8]) -> Drawn
    requires { (roles ≤ 32) × (start.at ≤ 800000) }
    ensures { Ran (times roles (senior_run roles)) start out.old out.new result }
{
    let mut d = start;
    for junior in 0..roles {
        d = draw_lines(Draws::Seniors(junior), roles - 1 - junior, d, out);
    }
    d
}
