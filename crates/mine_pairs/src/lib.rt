// At which level two groups of parts may become one, and which level a group has.
#![tactic(auto)]

ghost use Rattle.std.specs.Prelude.{true, ◌≡◌, ◌^◌, ◌≤◌, ◌<◌, get_or};
ghost use Rattle.mine_matches.specs.Matches.{both_members, SidesMet};
ghost use Rattle.mine_pairs.specs.PairLevels.{level_within, with_own, tables_fit, pair_level, group_level};
ghost use Rattle.mine_corners.specs.Pairing.{words_in, covers_just, grants_exactly, may_join};
ghost use Rattle.role_record.specs.Record.{WithinLimits};

use mine_corners::Group;
use role_record::{ByAttribute, ByPlace, ByPlaceMember, CountBySide, Links, RoleFile, Sizes};

// In the place of a level where two groups fit none.
pub const NO_LEVEL: usize = 4;

// The answer of grants_just, where it is known whether the two groups would be granted exactly. By the tables of a role file members pass
// their own conjuncts, and every group has an operation that is declared; then only those who pass besides need a look. Any other tables
// need the comparison.
fn fits_with(
    links: &Links,
    g: Group,
    h: Group,
    exactly: bool,
    who: u64,
    what: u64,
    sizes: Sizes,
) -> bool
    requires { WithinLimits sizes
        × (who < 2 ^ sizes.users)
        × (what < 2 ^ sizes.resources)
        × (exactly
        ≡ grants_exactly links.now (words_in g) (words_in h) sizes.users sizes.resources
        sizes.operations) }
    ensures { result
        ≡ covers_just links.now (words_in g) (words_in h) who what sizes.users sizes.resources
        sizes.operations }
{
    let people = sets::union(g.users, h.users);
    let things = sets::union(g.resources, h.resources);
    let acts = sets::meet(
        sets::union(g.operations, h.operations),
        sets::below(sizes.operations),
    );
    if sets::within(people, who) & sets::within(things, what) & (acts != 0) {
        if exactly {
            return mine_corners::rim_free(
                links,
                sets::meet(g.atoms, h.atoms),
                people,
                things,
                who,
                what,
            );
        }
        return false;
    }
    // A user of none of them has no triple.
    let anybody = sets::union(who, people);
    mine_exact::grants_just(links, g, h, anybody, who, what, sizes)
}

// Who passes with the 255 of a side, if that is asked for, of those who pass without.
fn with_own(matches: &ByPlaceMember, side: usize, own: bool, members: u64, passing: u64) -> u64
    requires { side < 2 }
    ensures { result ≡ with_own matches.now side own members passing }
{
    if own {
        return sets::meet(
            passing,
            mine_matches::met_by(
                matches,
                RoleFile::CONJUNCTS * side + RoleFile::ATTRIBUTES,
                members,
            ),
        );
    }
    passing
}

// The lowest level up to a limit that two groups together fit; 4 if there is none. The table of who meets the values of both groups'
// members is handed in.
fn level_within<'a>(
    links: &'a Links,
    matches: &'a ByPlaceMember,
    met: &'a ByAttribute,
    knowing: &'a ByPlace,
    attributes: &'a CountBySide,
    sizes: Sizes,
    g: Group,
    h: Group,
    limit: usize,
) -> usize
    requires { WithinLimits sizes
        × (get_or attributes.now 0 0 ≤ 6)
        × (get_or attributes.now 1 0 ≤ 6)
        × (limit ≤ 3)
        × SidesMet matches.now (both_members g.users h.users)
        (both_members g.resources h.resources) met.now
        × (may_join links.now (words_in g) (words_in h) ≡ true) }
    ensures { result
        ≡ level_within
        (tables_fit links.now matches.now knowing.now attributes.now
        sizes.users sizes.resources sizes.operations (words_in g) (words_in h))
        limit }
{
    let exactly = mine_exact::grants_exactly(links, g, h, sizes);
    let people = sets::union(g.users, h.users);
    let things = sets::union(g.resources, h.resources);
    // The levels differ in the 255s only.
    let who = mine_matches::passing(met, knowing, attributes[0], 0, people, sizes.users);
    let what = mine_matches::passing(met, knowing, attributes[1], 1, things, sizes.resources);
    for l in 0..limit + 1 {
        let w = with_own(matches, 0, (l == 1) | (l == 3), people, who);
        let v = with_own(matches, 1, (l == 2) | (l == 3), things, what);
        if fits_with(links, g, h, exactly, w, v, sizes) {
            return l;
        }
    }
    NO_LEVEL
}

// The level of two groups together, if they fit one up to a limit; else 4.
pub fn level_of_pair<'a>(
    links: &'a Links,
    matches: &'a ByPlaceMember,
    met: &'a ByAttribute,
    knowing: &'a ByPlace,
    attributes: &'a CountBySide,
    sizes: Sizes,
    g: Group,
    h: Group,
    limit: usize,
) -> usize
    requires { WithinLimits sizes
        × (get_or attributes.now 0 0 ≤ 6)
        × (get_or attributes.now 1 0 ≤ 6)
        × (limit ≤ 3)
        × SidesMet matches.now (both_members g.users h.users)
        (both_members g.resources h.resources) met.now }
    ensures { result
        ≡ pair_level links.now matches.now knowing.now attributes.now
        sizes.users sizes.resources sizes.operations (words_in g) (words_in h) limit }
{
    // Nearly all pairs are refused by a few words.
    if mine_corners::may_join(links, g, h) {
        return level_within(links, matches, met, knowing, attributes, sizes, g, h, limit);
    }
    NO_LEVEL
}

// The level of a group.
pub fn level_of_group<'a>(
    links: &'a Links,
    matches: &'a ByPlaceMember,
    met: &'a ByAttribute,
    knowing: &'a ByPlace,
    attributes: &'a CountBySide,
    sizes: Sizes,
    g: Group,
) -> usize
    requires { WithinLimits sizes
        × (get_or attributes.now 0 0 ≤ 6)
        × (get_or attributes.now 1 0 ≤ 6)
        × SidesMet matches.now g.users g.resources met.now }
    ensures { result
        ≡ group_level links.now matches.now knowing.now attributes.now
        sizes.users sizes.resources sizes.operations (words_in g) }
{
    // What fits no lower level has level 3.
    let level = level_within(links, matches, met, knowing, attributes, sizes, g, g, 2);
    if level < 3 {
        return level;
    }
    3
}
