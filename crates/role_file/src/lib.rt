// Reads a role file into one record by value.
#![tactic(auto)]

ghost use Rattle.std.specs.Prelude.{◌≡◌, ◌≤◌, length};
ghost use Rattle.files.specs.Answer.{map_answer};
ghost use Rattle.files.specs.Cause.{answer_of};
ghost use Rattle.files.specs.RoleFile.{read_roles};
ghost use Rattle.role_record.specs.Record.{record_of};
ghost use Rattle.role_file.specs.Reading.{settled_of};

use files::Refusal;
use role_admit::Phase;
use role_record::RoleFile;

// The end of reading: all seniors and the holders worked out, or that a role is its own senior.
fn settle(f: &mut RoleFile) -> Result<(), Refusal>
    requires { f.old.roles ≤ 32 }
    ensures { map_answer (λ done. f.new) (answer_of result) ≡ settled_of f.old }
{
    f.seniors = f.lines;
    role_seniority::close(&mut f.seniors, f.roles);
    if role_seniority::circular(&f.seniors, f.roles) {
        return Err(Refusal::OwnSenior);
    }
    role_seniority::holders(&f.assigned, &f.seniors, f.roles, &mut f.holders);
    Ok(())
}

// One pass over the bytes, each command stored where it belongs.
fn read_commands(s: &[u8]) -> Result<RoleFile, Refusal>
    requires { length s.now ≤ 65535 }
    ensures { answer_of result ≡ map_answer record_of (read_roles 2 s.now) }
{
    let mut f = RoleFile::empty();
    let mut phase = Phase::Nothing;
    let mut rest = s;
    while !phase.is_over() {
        let (c, w) = role_next::next(rest, phase, &f)?;
        phase = role_store::store(c, &mut f);
        rest = &rest[w..];
    }
    if !rest.is_empty() {
        return Err(Refusal::OutOfPlace);
    }
    settle(&mut f)?;
    Ok(f)
}

// Reads a role file into one record.
pub fn read(s: &[u8]) -> Result<RoleFile, Refusal>
    ensures { answer_of result ≡ map_answer record_of (read_roles 2 s.now) }
{
    if RoleFile::BYTES < s.len() {
        return Err(Refusal::TooLong);
    }
    read_commands(s)
}
