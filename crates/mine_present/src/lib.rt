// The conjuncts that the covering rule of a group has, and who meets them.
#![tactic(auto)]

ghost use Rattle.std.specs.Prelude.{◌≡◌, ◌<◌};
ghost use Rattle.mine_corners.specs.Pairing.{words_in};
ghost use Rattle.policy.specs.Rules.{own_at};
ghost use Rattle.mine_rows.specs.KeptPlaces.{met_at, met_places, allowed_at, conjunct_at, present_places};
ghost use Rattle.role_record.specs.Places.{place_side};
ghost use Rattle.mine_theory.specs.Words.Words.{members_of};

use mine_corners::Group;
use role_record::{ByPlace, ByPlaceMember, CountBySide, RoleFile};

// The members of a group on the side of a place.
fn members_at(g: Group, place: usize) -> u64
    ensures { result ≡ members_of (words_in g) (place_side place) }
{
    if place < RoleFile::CONJUNCTS {
        return g.users;
    }
    g.resources
}

// Who meets the conjunct of a place, if the place is one of these; else nobody.
fn met_at(matches: &ByPlaceMember, g: Group, places: u64, place: usize) -> u64
    requires { place < 14 }
    ensures { result ≡ met_at matches.now (words_in g) places place }
{
    if sets::has(places, place) {
        return mine_matches::met_by(matches, place, members_at(g, place));
    }
    0
}

// Who meets the conjunct of each of these places, whatever the table held.
pub fn met_places<'a>(matches: &'a ByPlaceMember, g: Group, places: u64, out: &mut ByPlace)
    ensures { out.new ≡ met_places matches.now (words_in g) places }
{
    for i in 0..RoleFile::PLACES {
        out[i] = met_at(matches, g, places, i);
    }
}

// Whether a level allows the 255 of the side of a place.
fn own_at(level: usize, place: usize) -> bool
    ensures { result ≡ own_at (place_side place) level }
{
    if place < RoleFile::CONJUNCTS {
        return (level == 1) | (level == 3);
    }
    (level == 2) | (level == 3)
}

// Whether a rule of a level may have a conjunct at a place.
fn allowed_at(attributes: &CountBySide, level: usize, place: usize) -> bool
    requires { place < 14 }
    ensures { result ≡ allowed_at attributes.now level place }
{
    let attribute = place % RoleFile::CONJUNCTS;
    if attribute == RoleFile::ATTRIBUTES {
        return own_at(level, place);
    }
    attribute < attributes[place / RoleFile::CONJUNCTS]
}

// Whether the covering rule of a group at a level has a conjunct at a place: the level allows it, and all members know the attribute.
fn conjunct_at<'a>(
    knowing: &'a ByPlace,
    attributes: &'a CountBySide,
    g: Group,
    level: usize,
    place: usize,
) -> bool
    requires { place < 14 }
    ensures { result ≡ conjunct_at knowing.now attributes.now (words_in g) level place }
{
    if allowed_at(attributes, level, place) {
        return sets::within(members_at(g, place), knowing[place]);
    }
    false
}

// The places where the covering rule of a group at a level has a condition.
pub fn present<'a>(knowing: &'a ByPlace, attributes: &'a CountBySide, g: Group, level: usize) -> u64
    ensures { result ≡ present_places knowing.now attributes.now (words_in g) level }
{
    let mut m: u64 = 0;
    for i in 0..RoleFile::PLACES {
        if conjunct_at(knowing, attributes, g, level, i) {
            m = sets::with(m, i);
        }
    }
    sets::union(
        m,
        sets::meet(g.atoms, sets::below(RoleFile::ATOMS)) << RoleFile::PLACES,
    )
}
