// The conjuncts of a rule as bytes, at the front of the slice that is lent.
#![tactic(auto)]

ghost use Rattle.std.specs.Prelude.{length, ◌≡◌, ◌≤◌, ◌<◌};
ghost use Rattle.files.specs.RoleFile.{side_by};
ghost use Rattle.mine_parts.specs.Layout.{room_in};
ghost use Rattle.write_lines.specs.Writing.{wrote};
ghost use Rattle.role_record.specs.Places.{place_side};
ghost use Rattle.write_theory.specs.RuleTable.{kept_as, place_bytes_in, kind_bytes_in, conjunct_bytes_in};

use role_record::{ByPlaceMember, BySide, RoleFile};
use write_theory::Outline;

// Whether a conjunct of this kind is kept at a place.
fn kept_as(kinds: &BySide, kept: u64, set: bool, place: usize) -> bool
    requires { place < 14 }
    ensures { result ≡ kept_as kinds.now kept set place }
{
    if sets::has(kept, place) {
        return write_places::set_place(kinds, place) == set;
    }
    false
}

// The lines of a kind at a place.
fn put_place<'a>(
    distinct: &'a ByPlaceMember,
    having: &'a ByPlaceMember,
    inside: &'a ByPlaceMember,
    kinds: &'a BySide,
    scratch: &'a [u64],
    rule: Outline,
    set: bool,
    place: usize,
    out: &mut [u8],
) -> usize
    requires head_bound { (rule.head < room_in scratch.now) × (place < 14) }
    requires place_in_bounds { length
        (place_bytes_in distinct.now having.now inside.now kinds.now scratch.now rule.head rule.kept
        (place_side place)
        set place)
        ≤ length out.old }
    ensures { (result
        ≡ length
        (place_bytes_in distinct.now having.now inside.now
        kinds.now scratch.now rule.head rule.kept (place_side place) set place))
        × (out.new
        ≡ wrote
        (place_bytes_in distinct.now having.now inside.now
        kinds.now scratch.now rule.head rule.kept (place_side place) set place)
        out.old) }
{
    if kept_as(kinds, rule.kept, set, place) {
        let mut list = [0u64; RoleFile::MEMBERS];
        let count = write_places::list_values(
            distinct, having, inside, scratch, rule.head, place, &mut list,
        );
        return write_lines::put_values(&list, count, place, set, out);
    }
    0
}

// The lines of a kind: a side, and sets or singles.
fn put_kind<'a>(
    distinct: &'a ByPlaceMember,
    having: &'a ByPlaceMember,
    inside: &'a ByPlaceMember,
    kinds: &'a BySide,
    scratch: &'a [u64],
    rule: Outline,
    side: usize,
    set: bool,
    out: &mut [u8],
) -> usize
    requires head_bound { (rule.head < room_in scratch.now) × (side < 2) }
    requires set_in_bounds { length
        (kind_bytes_in distinct.now having.now inside.now kinds.now scratch.now rule.head rule.kept
        (side_by side) set)
        ≤ length out.old }
    ensures { (result
        ≡ length
        (kind_bytes_in distinct.now having.now inside.now kinds.now
        scratch.now rule.head rule.kept (side_by side) set))
        × (out.new
        ≡ wrote
        (kind_bytes_in distinct.now having.now inside.now
        kinds.now scratch.now rule.head rule.kept (side_by side) set)
        out.old) }
{
    let mut at: usize = 0;
    for j in 0..RoleFile::CONJUNCTS {
        at += put_place(
            distinct,
            having,
            inside,
            kinds,
            scratch,
            rule,
            set,
            RoleFile::CONJUNCTS * side + j,
            &mut out[at..],
        );
    }
    at
}

// The lines 22 to 25.
pub fn put_conjuncts<'a>(
    distinct: &'a ByPlaceMember,
    having: &'a ByPlaceMember,
    inside: &'a ByPlaceMember,
    kinds: &'a BySide,
    scratch: &'a [u64],
    rule: Outline,
    out: &mut [u8],
) -> usize
    requires head_bound { rule.head < room_in scratch.now }
    requires kept_in_bounds { length (conjunct_bytes_in distinct.now having.now inside.now kinds.now scratch.now rule.head
        rule.kept) ≤ length
        out.old }
    ensures { (result
        ≡ length
        (conjunct_bytes_in distinct.now having.now inside.now
        kinds.now scratch.now rule.head rule.kept))
        × (out.new
        ≡ wrote
        (conjunct_bytes_in distinct.now having.now inside.now
        kinds.now scratch.now rule.head rule.kept)
        out.old) }
{
    let mut at: usize = 0;
    for k in 0..4 {
        at += put_kind(
            distinct,
            having,
            inside,
            kinds,
            scratch,
            rule,
            k / 2,
            k % 2 == 1,
            &mut out[at..],
        );
    }
    at
}
