// Commands of a role file stored where they belong.
#![tactic(auto)]

ghost use Rattle.std.specs.Prelude.{◌≡◌, ◌<◌, eqb, get_or, length};
ghost use Rattle.role_record.specs.Record.{marked_if};
ghost use Rattle.role_store.specs.Storing.{Bounded, added, declared_by, given_by, phase_after, stored_by};

use role_admit::Phase;
use role_commands::Command;
use role_record::RoleFile;

// The set with x in it too, if the kind is that of sets.
fn mark(m: u64, x: usize, kind: usize) -> u64
    ensures { result ≡ marked_if (eqb kind 1) m x }
{
    if kind == 1 { sets::with(m, x) } else { m }
}

// One element more in set i of a table.
fn add(t: &mut [u64], i: usize, x: usize)
    requires { i < length t.old }
    ensures { t.new ≡ added t.old i x }
{
    t[i] = sets::with(t[i], x);
}

// One attribute more of a side, of this kind and in this domain.
fn declare(f: &mut RoleFile, side: usize, kind: usize, domain: usize)
    requires { (side < 2) × (get_or f.old.attributes side 0 < 6) }
    ensures { f.new ≡ declared_by f.old side kind domain }
{
    let attribute = f.attributes[side];
    f.kinds[side] = mark(f.kinds[side], attribute, kind);
    f.domains[RoleFile::ATTRIBUTES * side + attribute] = domain as u64;
    f.attributes[side] = attribute + 1;
}

// A value more, and that it is known.
fn give(f: &mut RoleFile, side: usize, attribute: usize, who: usize, value: u64)
    requires { (side < 2) × (attribute < 6) × (who < 64) }
    ensures { f.new ≡ given_by f.old side attribute who value }
{
    let column = RoleFile::ATTRIBUTES * side + attribute;
    add(&mut f.known, column, who);
    f.values[RoleFile::MEMBERS * column + who] = value;
}

// Stores what an admitted command says where it belongs; the phase after it.
pub fn store(c: Command, f: &mut RoleFile) -> Phase
    requires { Bounded f.old.attributes c }
    ensures { (result ≡ phase_after c) × (f.new ≡ stored_by f.old c) }
{
    match c {
        Command::Sizes {
            users,
            resources,
            operations,
            roles,
        } => {
            f.users = users;
            f.resources = resources;
            f.operations = operations;
            f.roles = roles;
            Phase::Declaring
        }
        Command::Declare { side, kind, domain } => {
            declare(f, side, kind, domain);
            Phase::Declaring
        }
        Command::Give {
            set: _,
            side,
            attribute,
            who,
            value,
        } => {
            give(f, side, attribute, who, value);
            Phase::Telling
        }
        Command::Assign { role, user } => {
            add(&mut f.assigned, role, user);
            Phase::Telling
        }
        Command::Permit {
            role,
            resource,
            operation,
        } => {
            let cell = RoleFile::ROLES * operation + role;
            add(&mut f.permissions, cell, resource);
            Phase::Telling
        }
        Command::Line { junior, senior } => {
            add(&mut f.lines, junior, senior);
            Phase::Telling
        }
        Command::End => Phase::Ended,
    }
}
