// The first triple at which a rule and a group differ.
#![tactic(auto)]

ghost use Rattle.std.specs.Prelude.{◌&&◌, not, ◌≡◌, ◌≤◌};
ghost use Rattle.grant_grids.specs.Grid.{difference_of};
ghost use Rattle.mine_corners.specs.Pairing.{words_in};
ghost use Rattle.sets.specs.Sets.{bit};
ghost use Rattle.sets.specs.Tests.{iff};
ghost use Rattle.mine_rows.specs.Others.{first_other};
ghost use Rattle.mine_rows.specs.Others.{no_other};

use mine_corners::Group;
use role_record::{Links, Sizes};

// Whether the rows c of the rule and a of the group differ at a resource and an operation.
fn differ_at(operations: u64, c: u64, a: u64, resource: usize, operation: usize) -> bool
    ensures { result ≡ not (iff (bit operations operation && bit c resource) (bit operations operation && bit a resource)) }
{
    let granted = sets::has(operations, operation);
    (granted & sets::has(c, resource)) != (granted & sets::has(a, resource))
}

// The first triple, by user, then resource, then operation, at which a group and a rule with its operations differ. The rule's atoms, and
// who and what meet its conjuncts, are handed in.
pub fn first_other(
    links: &Links,
    g: Group,
    atoms: u64,
    who: u64,
    what: u64,
    sizes: Sizes,
) -> Option<(usize, usize, usize)>
    requires { sizes.users ≤ 64 }
    ensures { result
        ≡ difference_of
        (first_other links.now (words_in g) atoms who what sizes.users sizes.resources
        sizes.operations) }
{
    'triples: loop {
        for u in 0..sizes.users {
            let c = grant_links::row(links, atoms, who, what, u);
            let a = grant_links::row(links, g.atoms, g.users, g.resources, u);
            // Most users need no look at their resources.
            if c == a {
                continue;
            }
            for r in 0..sizes.resources {
                for o in 0..sizes.operations {
                    if differ_at(g.operations, c, a, r, o) {
                        break 'triples Some((u, r, o));
                    }
                }
            }
        }
        break 'triples None;
    }
}

// Whether a rule with a group's operations grants the group's triples and no other, found triple by triple.
pub fn no_other(links: &Links, g: Group, atoms: u64, who: u64, what: u64, sizes: Sizes) -> bool
    requires { sizes.users ≤ 64 }
    ensures { result
        ≡ no_other links.now (words_in g) atoms who what sizes.users sizes.resources
        sizes.operations }
{
    first_other(links, g, atoms, who, what, sizes).is_none()
}
