// What stands at the places of a mined rule, from the tables of the loaded role file and a group in scratch memory: whether a place is one of
// sets, the values of its conjunct, and the atoms among the places that are kept.
#![tactic(auto)]

ghost use Rattle.std.specs.Prelude.{length, ◌≡◌, ◌<◌};
ghost use Rattle.mine_parts.specs.Layout.{room_in};
ghost use Rattle.mine_theory.specs.Lines.RuleLines.{atom_set};
ghost use Rattle.role_record.specs.Places.{set_place};
ghost use Rattle.write_lines.specs.Writing.{wrote};
ghost use Rattle.write_theory.specs.RuleLists.{listed_at};

use role_record::{ByMember, ByPlaceMember, BySide, RoleFile};

// The place of the resources' 255.
const LAST_PLACE: usize = RoleFile::PLACES - 1;

// Whether the place is one of sets.
pub fn set_place(kinds: &BySide, place: usize) -> bool
    requires { place < 14 }
    ensures { result ≡ set_place kinds.now place }
{
    if place == RoleFile::ATTRIBUTES {
        return true;
    }
    if place == LAST_PLACE {
        return false;
    }
    sets::has(
        kinds[place / RoleFile::CONJUNCTS],
        place % RoleFile::CONJUNCTS,
    )
}

// The values that the conjunct at a place lists, and how many they are.
pub fn list_values<'a>(
    distinct: &'a ByPlaceMember,
    having: &'a ByPlaceMember,
    inside: &'a ByPlaceMember,
    scratch: &'a [u64],
    head: usize,
    place: usize,
    list: &mut ByMember,
) -> usize
    requires { (head < room_in scratch.now) × (place < 14) }
    ensures { (result
        ≡ length
        (listed_at distinct.now having.now inside.now scratch.now
        head place))
        × (list.new
        ≡ wrote
        (listed_at distinct.now having.now inside.now
        scratch.now head place)
        list.old) }
{
    let members = mine_parts::members_at(scratch, head, place / RoleFile::CONJUNCTS);
    mine_distinct::listed(distinct, having, inside, place, members, list)
}

// The atoms among the places that are kept.
pub fn atoms_kept(kept: u64) -> u64
    ensures { result ≡ atom_set kept }
{
    sets::meet(kept >> RoleFile::PLACES, sets::below(RoleFile::ATOMS))
}
