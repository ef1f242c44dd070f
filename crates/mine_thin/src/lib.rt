// Which conditions of a group's covering rule stay. The conditions have 50 places: the attributes of the users with their 255, those of
// the resources with theirs, and the 36 atoms. One place after the other is struck if the rule still grants just the group's triples.
#![tactic(auto)]

ghost use Rattle.std.specs.Prelude.{eqb, ◌≡◌, ◌≤◌, ◌<◌};
ghost use Rattle.grant_links.specs.Linked.{linked_with};
ghost use Rattle.mine_corners.specs.Pairing.{words_in, less};
ghost use Rattle.sets.specs.Sets.{mask_of};
ghost use Rattle.mine_rows.specs.KeptPlaces.{grants_same, thin_by, kept_in};
ghost use Rattle.mine_rows.specs.Rows.{joined_rows, free_corner, free_corners, is_full, row_in, adds_none, asks_no_more};

use mine_corners::Group;
use role_record::{ByMember, ByPlace, ByPlaceMember, CountBySide, Links, RoleFile, Sizes};

// Whether no user of a set has one of these resources in its row.
fn corner_free(rows: &ByMember, users: u64, resources: u64) -> bool
    ensures { result ≡ free_corner rows.now users resources }
{
    if resources == 0 {
        return true;
    }
    sets::members(users).all(|u| sets::meet(rows[u], resources) == 0)
}

// Whether the group's users have none of the resources that the rule adds, and the users that it adds none at all.
fn corners_free(rows: &ByMember, g: Group, who: u64, what: u64) -> bool
    ensures { result ≡ free_corners rows.now (words_in g) who what }
{
    if corner_free(rows, g.users, sets::without(what, g.resources)) {
        return corner_free(rows, sets::without(who, g.users), what);
    }
    false
}

// Whether these atoms join a user with none of these resources but the group's.
fn joins_no_other<'a>(
    links: &'a Links,
    rows: &'a ByMember,
    g: Group,
    atoms: u64,
    u: usize,
    what: u64,
) -> bool
    requires { u < 64 }
    ensures { result
        ≡ eqb (linked_with links.now atoms u (less what (row_in rows.now (words_in g) u))) 0 }
{
    let others = sets::without(what, mine_rows::row_in(rows, g, u));
    grant_links::linked(links, atoms, u, others) == 0
}

// Whether these atoms join those who meet the rule's conjuncts with none but the group's resources.
fn adds_none<'a>(
    links: &'a Links,
    rows: &'a ByMember,
    g: Group,
    full: u64,
    atoms: u64,
    who: u64,
    what: u64,
) -> bool
    requires { full ≡ mask_of 64 (is_full rows.now (words_in g)) }
    ensures { result ≡ adds_none links.now rows.now (words_in g) atoms who what }
{
    sets::members(mine_rows::open_users(g, full, who, what)).all(|u| joins_no_other(
        links, rows, g, atoms, u, what,
    ))
}

// Whether a rule asks no more than a group has: all members of the group meet its conjuncts, its atoms are some of the group's, and the
// group has an operation. So it is with the rules of every group of a role file.
fn asks_no_more(g: Group, atoms: u64, who: u64, what: u64, operations: usize) -> bool
    ensures { result ≡ asks_no_more (words_in g) atoms who what operations }
{
    if sets::meet(g.operations, sets::below(operations)) == 0 {
        return false;
    }
    sets::within(g.users, who) & sets::within(g.resources, what) & sets::within(atoms, g.atoms)
}

// Whether the rule with the conditions at these places grants the group's triples and no other. Who meets the conjunct of each place, and
// the rows of the group's atoms, are handed in. A rule that asks no more than the group has grants all of the group, and what it grants
// besides is found in sets of resources: while it has all atoms of the group, in the rows alone. The users whose rows have all resources of
// the group are handed in too.
fn grants_same<'a>(
    links: &'a Links,
    met: &'a ByPlace,
    rows: &'a ByMember,
    g: Group,
    full: u64,
    places: u64,
    sizes: Sizes,
) -> bool
    requires { (sizes.users ≤ 64)
        × (sizes.resources ≤ 64)
        × (rows.now ≡ joined_rows links.now g.atoms)
        × (full ≡ mask_of 64 (is_full rows.now (words_in g))) }
    ensures { result
        ≡ grants_same links.now met.now sizes.users sizes.resources sizes.operations
        (words_in g) places }
{
    let who = rule_conjuncts::met_by_all(met, places, 0, sizes.users);
    let what = rule_conjuncts::met_by_all(met, places, 1, sizes.resources);
    let atoms = places >> RoleFile::PLACES;
    if asks_no_more(g, atoms, who, what, sizes.operations) {
        if sets::meet(g.atoms, sets::below(RoleFile::ATOMS)) == atoms {
            return corners_free(rows, g, who, what);
        }
        return adds_none(links, rows, g, full, atoms, who, what);
    }
    mine_others::no_other(links, g, atoms, who, what, sizes)
}

// These places without one, if it is there and the grants stay the same without it; else all of them.
fn thinned<'a>(
    links: &'a Links,
    met: &'a ByPlace,
    rows: &'a ByMember,
    g: Group,
    full: u64,
    places: u64,
    place: usize,
    sizes: Sizes,
) -> u64
    requires { (sizes.users ≤ 64)
        × (sizes.resources ≤ 64)
        × (rows.now ≡ joined_rows links.now g.atoms)
        × (full ≡ mask_of 64 (is_full rows.now (words_in g))) }
    ensures { result
        ≡ thin_by links.now met.now sizes.users sizes.resources sizes.operations
        (words_in g) places place }
{
    if sets::has(places, place) {
        let fewer = sets::without(places, sets::with(0, place));
        if grants_same(links, met, rows, g, full, fewer, sizes) {
            return fewer;
        }
    }
    places
}

// The places of the conditions that stay.
pub fn kept_places<'a>(
    links: &'a Links,
    matches: &'a ByPlaceMember,
    knowing: &'a ByPlace,
    attributes: &'a CountBySide,
    g: Group,
    level: usize,
    sizes: Sizes,
) -> u64
    requires { (sizes.users ≤ 64) × (sizes.resources ≤ 64) }
    ensures { result
        ≡ kept_in links.now matches.now knowing.now attributes.now
        sizes.users sizes.resources sizes.operations (words_in g) level }
{
    let mut kept = mine_present::present(knowing, attributes, g, level);
    let mut met = [0u64; RoleFile::PLACES];
    mine_present::met_places(matches, g, kept, &mut met);
    let mut rows = [0u64; RoleFile::MEMBERS];
    mine_rows::joined_rows(links, g.atoms, &mut rows);
    let full = mine_rows::full_users(&rows, g);
    // No place comes in, so those without a condition need no turn.
    for place in sets::members(kept) {
        kept = thinned(links, &met, &rows, g, full, kept, place, sizes);
    }
    kept
}
