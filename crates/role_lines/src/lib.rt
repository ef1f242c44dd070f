// The seniority lines of a role file that has a circle: reading refuses it by 7 and hands back no record, so a second pass collects them.
#![tactic(auto)]

ghost use Rattle.std.specs.Prelude.{◌≡◌};
ghost use Rattle.role_lines.specs.Collecting.{roles_after, lines_after, Collected};

use role_commands::Command;
use role_record::{ByRole, RoleFile};

// What a command says of roles: 01 how many there are, 07 a line. A line that the table has no room for is passed over; files whose
// commands are all obeyed have none.
fn note(c: Command, roles: usize, lines: &mut ByRole) -> usize
    ensures { (result ≡ roles_after c roles) × (lines.new ≡ lines_after c lines.old) }
{
    match c {
        Command::Sizes { roles: k, .. } => k,
        Command::Line { junior, senior } => {
            if junior < RoleFile::ROLES {
                lines[junior] = sets::with(lines[junior], senior);
            }
            roles
        }
        _ => roles,
    }
}

// How many roles a file has, and its lines, whatever the table held: of role j the roles that are its seniors by a line 07. From command to
// command, for as long as there is a whole one: no command is tested again.
pub fn lines(file: &[u8], lines: &mut ByRole) -> usize
    ensures { Collected file.now result lines.new }
{
    role_record::clear(lines);
    let mut roles: usize = 0;
    let mut rest = file;
    while let Ok((c, w)) = role_commands::decode(rest) {
        roles = note(c, roles, lines);
        rest = &rest[w..];
    }
    roles
}
