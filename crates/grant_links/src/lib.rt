// The resources that all atoms of a rule or of a group leave a user. The table of links has the resources that an atom joins with a user at
// word 64 * atom + user.
#![tactic(auto)]

ghost use Rattle.std.specs.Prelude.{◌≡◌, ◌<◌};
ghost use Rattle.grant_links.specs.Linked.{linked_with, row_of};

use role_record::{Links, RoleFile};

// Which of some resources every atom joins with a user. Most rules and groups have few atoms, so only those are looked at, and no more of them once no
// resource is left.
pub fn linked(links: &Links, atoms: u64, user: usize, among: u64) -> u64
    requires { user < 64 }
    ensures { result ≡ linked_with links.now atoms user among }
{
    let mut m = among;
    for i in sets::members(sets::meet(atoms, sets::below(RoleFile::ATOMS))) {
        if m == 0 {
            return 0;
        }
        m = sets::meet(m, links[RoleFile::MEMBERS * i + user]);
    }
    m
}

// The resources left to a user: none if the user is not one of these.
pub fn row(links: &Links, atoms: u64, users: u64, resources: u64, user: usize) -> u64
    requires { user < 64 }
    ensures { result ≡ row_of links.now atoms users resources user }
{
    if sets::has(users, user) {
        return linked(links, atoms, user, resources);
    }
    0
}
