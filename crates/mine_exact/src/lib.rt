// Whether the covering rule of two groups grants just what they have, triple by triple.
#![tactic(auto)]

ghost use Rattle.std.specs.Prelude.{true, ◌&&◌, ◌||◌, not, ◌≡◌};
ghost use Rattle.grant_grids.specs.Grid.{difference_of};
ghost use Rattle.mine_corners.specs.Pairing.{words_in, rows_agree, first_beyond, OthersSame, covers_just, grants_exactly, may_join, changed_users};
ghost use Rattle.sets.specs.Sets.{bit};
ghost use Rattle.sets.specs.Tests.{iff};
ghost use Rattle.role_record.specs.Record.{WithinLimits};

use mine_corners::Group;
use role_record::{Links, Sizes};

// Whether a row of the covering rule and the rows of the two groups differ at a resource and an operation.
fn differ_at(
    all: u64,
    c: u64,
    mine: u64,
    a: u64,
    theirs: u64,
    b: u64,
    resource: usize,
    operation: usize,
) -> bool
    ensures { result
        ≡ not
        (iff (bit all operation && bit c resource)
        ((bit mine operation && bit a resource) || (bit theirs operation && bit b resource))) }
{
    let covered = sets::has(all, operation) & sets::has(c, resource);
    let first = sets::has(mine, operation) & sets::has(a, resource);
    let second = sets::has(theirs, operation) & sets::has(b, resource);
    covered != (first | second)
}

// Whether the rows of a user agree as words: c of the covering rule, a and b of the groups with the operations mine and theirs.
fn agree(mine: u64, theirs: u64, c: u64, a: u64, b: u64) -> bool
    ensures { result ≡ rows_agree mine theirs c a b }
{
    let shared = (sets::meet(mine, theirs) == 0) | (c == sets::union(a, b));
    let only_mine = (sets::without(mine, theirs) == 0) | (c == a);
    let only_theirs = (sets::without(theirs, mine) == 0) | (c == b);
    shared & only_mine & only_theirs
}

// The first triple, by user, then resource, then operation, at which the covering rule of two groups together and the groups differ. Who
// and what pass its conjuncts is handed in, and among whom to look.
pub fn first_beyond(
    links: &Links,
    g: Group,
    h: Group,
    among: u64,
    who: u64,
    what: u64,
    sizes: Sizes,
) -> Option<(usize, usize, usize)>
    requires { WithinLimits sizes
        × OthersSame links.now (words_in g) (words_in h) among who what sizes.users }
    ensures { result
        ≡ difference_of
        (first_beyond links.now (words_in g) (words_in h) who what sizes.users sizes.resources
        sizes.operations) }
{
    let all = sets::union(g.operations, h.operations);
    let atoms = sets::meet(g.atoms, h.atoms);
    'triples: loop {
        for u in 0..sizes.users {
            // Any other user has the same triples on both sides.
            if !sets::has(among, u) {
                continue;
            }
            let c = grant_links::row(links, atoms, who, what, u);
            let a = grant_links::row(links, g.atoms, g.users, g.resources, u);
            let b = grant_links::row(links, h.atoms, h.users, h.resources, u);
            // Most users need no look at their resources.
            if agree(g.operations, h.operations, c, a, b) {
                continue;
            }
            for r in 0..sizes.resources {
                for o in 0..sizes.operations {
                    if differ_at(all, c, g.operations, a, h.operations, b, r, o) {
                        break 'triples Some((u, r, o));
                    }
                }
            }
        }
        break 'triples None;
    }
}

// Whether a rule with the operations and the atoms of two groups grants just what they have. Who and what pass its conjuncts is handed in,
// and among whom to look.
pub fn grants_just(
    links: &Links,
    g: Group,
    h: Group,
    among: u64,
    who: u64,
    what: u64,
    sizes: Sizes,
) -> bool
    requires { WithinLimits sizes
        × OthersSame links.now (words_in g) (words_in h) among who what sizes.users }
    ensures { result
        ≡ covers_just links.now (words_in g) (words_in h) who what sizes.users sizes.resources
        sizes.operations }
{
    first_beyond(links, g, h, among, who, what, sizes).is_none()
}

// Whom the covering rule of two groups that may become one may grant more than they have: the users of a group with atoms that the other
// lacks. Users of the other group only keep their atoms, and the corners are free.
fn changed(g: Group, h: Group) -> u64
    ensures { result ≡ changed_users (words_in g) (words_in h) }
{
    if sets::within(g.atoms, h.atoms) {
        return h.users;
    }
    if sets::within(h.atoms, g.atoms) {
        return g.users;
    }
    sets::union(g.users, h.users)
}

// Whether two groups that may become one would be granted just what they have if nobody but their users and nothing but their resources
// passed. No level has a part in that.
pub fn grants_exactly(links: &Links, g: Group, h: Group, sizes: Sizes) -> bool
    requires { WithinLimits sizes × (may_join links.now (words_in g) (words_in h) ≡ true) }
    ensures { result
        ≡ grants_exactly links.now (words_in g) (words_in h) sizes.users sizes.resources
        sizes.operations }
{
    // Most pairs have the same atoms and need no comparison.
    if g.atoms == h.atoms {
        return true;
    }
    grants_just(
        links,
        g,
        h,
        changed(g, h),
        sets::union(g.users, h.users),
        sets::union(g.resources, h.resources),
        sizes,
    )
}
