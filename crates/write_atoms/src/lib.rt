// The atoms of a rule as bytes, at the front of the slice that is lent.
#![tactic(auto)]

ghost use Rattle.std.specs.Prelude.{length, ◌≡◌, ◌≤◌, ◌<◌};
ghost use Rattle.write_lines.specs.Writing.{wrote};
ghost use Rattle.write_theory.specs.RuleTable.{atom_bytes_at, atom_bytes_in};

use files::rule_byte;
use role_record::RoleFile;

// The line 27 of an atom by its number.
fn put_atom(kept: u64, atom: usize, out: &mut [u8]) -> usize
    requires { (atom < 36) × (length (atom_bytes_at kept atom) ≤ length out.old) }
    ensures { (result ≡ length (atom_bytes_at kept atom)) × (out.new ≡ wrote (atom_bytes_at kept atom) out.old) }
{
    if sets::has(kept, RoleFile::PLACES + atom) {
        write_lines::put_three(
            out,
            rule_byte::LINK,
            atom / RoleFile::ATTRIBUTES,
            atom % RoleFile::ATTRIBUTES,
        );
        return 3;
    }
    0
}

// The lines 27. Only the atoms that are kept are visited.
pub fn put_atoms(kept: u64, out: &mut [u8]) -> usize
    requires { length (atom_bytes_in kept) ≤ length out.old }
    ensures { (result ≡ length (atom_bytes_in kept)) × (out.new ≡ wrote (atom_bytes_in kept) out.old) }
{
    let mut at: usize = 0;
    for j in sets::members(write_places::atoms_kept(kept)) {
        at += put_atom(kept, j, &mut out[at..]);
    }
    at
}
