// Whether a command of a role file may stand where it does and say what it says.
#![tactic(auto)]

ghost use Rattle.std.specs.Prelude.{◌≡◌};
ghost use Rattle.role_record.specs.Record.{FewAttributes};
ghost use Rattle.role_admit.specs.Admit.{checked, below_of, sizes_admitted, kind_admitted, size_of, value_admitted, may_stand, operands_admitted, admit_of};

mod phase;

use files::Refusal;
pub use phase::Phase;
use role_commands::Command;
use role_record::{RoleFile, Sizes};

// Refuses unless a test is passed.
fn check(passed: bool, refusal: Refusal) -> Result<(), Refusal>
    ensures { result ≡ checked passed refusal }
{
    if passed { Ok(()) } else { Err(refusal) }
}

// Refuses a number that is not below a limit.
pub fn below(x: usize, limit: usize) -> Result<(), Refusal>
    ensures { result ≡ below_of x limit }
{
    check(x < limit, Refusal::Beyond)
}

// Refuses a size beyond its limit.
pub fn admit_sizes(sizes: Sizes) -> Result<(), Refusal>
    ensures { result ≡ sizes_admitted sizes }
{
    below(sizes.users, RoleFile::USERS + 1)?;
    below(sizes.resources, RoleFile::RESOURCES + 1)?;
    below(sizes.operations, RoleFile::OPERATIONS + 1)?;
    below(sizes.roles, RoleFile::ROLES + 1)
}

// Refuses an attribute that cannot be declared.
fn admit_kind(side: usize, kind: usize, f: &RoleFile) -> Result<(), Refusal>
    ensures { result ≡ kind_admitted side kind f.now }
{
    below(side, RoleFile::SIDES)?;
    below(kind, RoleFile::KINDS)?;
    below(f.attributes[side], RoleFile::ATTRIBUTES)
}

// The size of a side.
fn size_of(side: usize, f: &RoleFile) -> usize
    ensures { result ≡ size_of side f.now }
{
    if side == 0 { f.users } else { f.resources }
}

// Refuses a value that cannot be given.
fn admit_value(
    set: bool,
    side: usize,
    attribute: usize,
    who: usize,
    f: &RoleFile,
) -> Result<(), Refusal>
    requires { FewAttributes f.now.attributes }
    ensures { result ≡ value_admitted set side attribute who f.now }
{
    below(side, RoleFile::SIDES)?;
    below(attribute, f.attributes[side])?;
    below(who, size_of(side, f))?;
    check(
        sets::has(f.kinds[side], attribute) == set,
        Refusal::WrongKind,
    )?;
    let column = RoleFile::ATTRIBUTES * side + attribute;
    check(!sets::has(f.known[column], who), Refusal::WrongKind)
}

// Whether a command may stand where so much was read before it.
fn may_stand(c: Command, phase: Phase) -> bool
    ensures { result ≡ may_stand c phase }
{
    match c {
        Command::Sizes { .. } => phase == Phase::Nothing,
        Command::Declare { .. } => phase == Phase::Declaring,
        _ => phase != Phase::Nothing,
    }
}

// Refuses a command that says what it may not.
fn admit_operands(c: Command, f: &RoleFile) -> Result<(), Refusal>
    requires { FewAttributes f.now.attributes }
    ensures { result ≡ operands_admitted c f.now }
{
    match c {
        Command::Sizes {
            users,
            resources,
            operations,
            roles,
        } => admit_sizes(Sizes {
            users,
            resources,
            operations,
            roles,
        }),
        Command::Declare {
            side,
            kind,
            domain: _,
        } => admit_kind(side, kind, f),
        Command::Give {
            set,
            side,
            attribute,
            who,
            value: _,
        } => admit_value(set, side, attribute, who, f),
        Command::Assign { role, user } => {
            below(role, f.roles)?;
            below(user, f.users)
        }
        Command::Permit {
            role,
            resource,
            operation,
        } => {
            below(role, f.roles)?;
            below(resource, f.resources)?;
            below(operation, f.operations)
        }
        Command::Line { junior, senior } => {
            below(junior, f.roles)?;
            below(senior, f.roles)
        }
        Command::End => Ok(()),
    }
}

// Refuses a command where it may not stand, or that says what it may not.
#[tactic(auto, unfolding(crate::specs::Admit::admit_of))]
pub fn admit(c: Command, phase: Phase, f: &RoleFile) -> Result<(), Refusal>
    requires { FewAttributes f.now.attributes }
    ensures { result ≡ admit_of c phase f.now }
{
    check(may_stand(c, phase), Refusal::OutOfPlace)?;
    admit_operands(c, f)
}
