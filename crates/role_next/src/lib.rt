// The next command of a role file, if it may stand there.
#![tactic(auto)]

ghost use Rattle.std.specs.Prelude.{◌≡◌};
ghost use Rattle.role_record.specs.Record.{FewAttributes};
ghost use Rattle.role_next.specs.Taking.{next_of};

use files::Refusal;
use role_admit::Phase;
use role_commands::Command;
use role_record::RoleFile;

// The command at the front of these bytes, where it may stand there, and how many of them it takes.
#[tactic(auto, unfolding(crate::specs::Taking::next_of))]
pub fn next(s: &[u8], phase: Phase, f: &RoleFile) -> Result<(Command, usize), Refusal>
    requires { FewAttributes f.now.attributes }
    ensures { result ≡ next_of s.now phase f.now }
{
    let (c, w) = role_commands::decode(s)?;
    role_admit::admit(c, phase, f)?;
    Ok((c, w))
}
