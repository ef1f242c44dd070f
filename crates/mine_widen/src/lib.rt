// The 14 places of attributes, the six of the users, their 255, the six of the resources, their 255: who knows the attribute of each, and
// who passes the conjuncts of the values that some members have.
#![tactic(auto)]

ghost use Rattle.std.specs.Prelude.{length, ◌≡◌, ℕ, ◌<◌, ◌*◌};
ghost use Rattle.mine_matches.specs.Matches.{both_members, Met, MemberAdded, SidesMet};

use role_record::{ByAttribute, ByPlaceMember, RoleFile};

// Joins to a side's part of the table who meets the values that one member has, attribute by attribute. The 255 is left out.
fn add_member(matches: &ByPlaceMember, side: usize, member: usize, met: &mut [u64])
    requires { (side < 2) × (member < 64) × (length met.old ≡ 6) }
    ensures { (length met.new ≡ 6)
        × MemberAdded matches.now side member met.old met.new }
{
    for a in 0..RoleFile::ATTRIBUTES {
        met[a] = sets::union(
            met[a],
            matches[RoleFile::MEMBERS * (RoleFile::CONJUNCTS * side + a) + member],
        );
    }
}

// The same of some members, into a slice, as a part of the table is lent. Member by member and not attribute by attribute: most groups have
// few members, and the inner loop always takes six turns.
fn add_members(matches: &ByPlaceMember, side: usize, members: u64, met: &mut [u64])
    requires { (side < 2) × (length met.old ≡ 6) }
    ensures { (length met.new ≡ 6)
        × ((m : ℕ)
        → Met matches.now side m met.old
        → Met matches.now side (both_members m members) met.new) }
{
    let mut left = members;
    while 0 < left {
        add_member(matches, side, sets::least(left), met);
        left = sets::without_least(left);
    }
}

// Makes the table of some users and resources that of these too: the users' attributes come first.
pub fn widen(matches: &ByPlaceMember, users: u64, resources: u64, met: &mut ByAttribute)
    ensures { (m n : ℕ)
        → SidesMet matches.now m n met.old
        → SidesMet matches.now (both_members m users) (both_members n resources) met.new }
{
    add_members(matches, 0, users, &mut met[0..RoleFile::ATTRIBUTES]);
    add_members(
        matches,
        1,
        resources,
        &mut met[RoleFile::ATTRIBUTES..RoleFile::SIDES * RoleFile::ATTRIBUTES],
    );
}
