// Whether nothing plain speaks against two groups becoming one. A group is summed up in four words; the table of links has at word
// 64 * atom + user the resources that an atom joins with a user.
#![tactic(auto)]

ghost use Rattle.std.specs.Prelude.{true, ◌&&◌, ◌≡◌, ◌<◌};
ghost use Rattle.mine_corners.specs.Pairing.{words_in, corner_free, rim_free, reaches, corners_free, may_join};

use role_record::Links;

// A set of triples summed up: who stands in it on either side, its operations, and the atoms true of all its pairs.
#[derive(Clone, Copy)]
pub struct Group {
    pub users: u64,
    pub resources: u64,
    pub operations: u64,
    pub atoms: u64,
}

// Whether no user of one set and resource of another are joined by all of these atoms.
fn corner_free(links: &Links, atoms: u64, users: u64, resources: u64) -> bool
    ensures { result ≡ corner_free links.now atoms users resources }
{
    // Most corners have nothing on one side.
    if resources == 0 {
        return true;
    }
    sets::members(users).all(|u| grant_links::linked(links, atoms, u, resources) == 0)
}

// Whether the atoms of both groups join no user of one group only with a resource of the other only.
fn corners_free(links: &Links, g: Group, h: Group) -> bool
    ensures { result ≡ corners_free links.now (words_in g) (words_in h) }
{
    let atoms = sets::meet(g.atoms, h.atoms);
    if corner_free(
        links,
        atoms,
        sets::without(g.users, h.users),
        sets::without(h.resources, g.resources),
    ) {
        return corner_free(
            links,
            atoms,
            sets::without(h.users, g.users),
            sets::without(g.resources, h.resources),
        );
    }
    false
}

// Whether a group has no operation that the other lacks, or else has the other's users and resources.
pub fn reaches(g: Group, h: Group) -> bool
    ensures { result ≡ reaches (words_in g) (words_in h) }
{
    if sets::without(g.operations, h.operations) == 0 {
        return true;
    }
    if sets::within(h.users, g.users) {
        return sets::within(h.resources, g.resources);
    }
    false
}

// Whether each of two groups reaches the other. Nearly all pairs that cannot become one fail here, before a table is read.
pub fn near(g: Group, h: Group) -> bool
    ensures { result ≡ (reaches (words_in g) (words_in h) && reaches (words_in h) (words_in g)) }
{
    if reaches(g, h) {
        return reaches(h, g);
    }
    false
}

// Whether nothing plain speaks against two groups becoming one. Two groups that this refuses need no comparison.
pub fn may_join(links: &Links, g: Group, h: Group) -> bool
    ensures { result ≡ may_join links.now (words_in g) (words_in h) }
{
    if near(g, h) {
        return corners_free(links, g, h);
    }
    false
}

// Whether these atoms join nobody who passes with anything that passes, but some of these users with some of these resources.
pub fn rim_free(links: &Links, atoms: u64, users: u64, resources: u64, who: u64, what: u64) -> bool
    ensures { result ≡ rim_free links.now atoms users resources who what }
{
    if corner_free(links, atoms, users, sets::without(what, resources)) {
        return corner_free(links, atoms, sets::without(who, users), what);
    }
    false
}
