// What members of a side have in common: who knows an attribute, who meets a value, and who passes.
#![tactic(auto)]

ghost use Rattle.std.specs.Prelude.{length, drop, false, List, ◌≡◌, ℕ, ◌≤◌, ◌<◌, ◌*◌};
ghost use Rattle.mine_matches.specs.Matches.{known_for, known_places, met_of, Met, passing_of};

use role_record::{ByAttribute, ByPlace, ByPlaceMember, RoleFile};

// Who knows the attribute of a place: for a 255 everybody there is.
fn known_at(users: usize, resources: usize, known: &ByAttribute, place: usize) -> u64
    requires { (users ≤ 64) × (resources ≤ 64) × (place < 14) }
    ensures { result ≡ known_for users resources known.now place }
{
    sets::meet(
        sets::below(grant_values::count_at(users, resources, place)),
        grant_values::knowing(users, resources, known, place),
    )
}

// Who knows the attribute of each place, whatever the table held.
pub fn known_places(users: usize, resources: usize, known: &ByAttribute, out: &mut ByPlace)
    requires { (users ≤ 64) × (resources ≤ 64) }
    ensures { out.new ≡ known_places users resources known.now }
{
    for i in 0..RoleFile::PLACES {
        out[i] = known_at(users, resources, known, i);
    }
}

// Who meets a conjunct of the values of these members at a place.
pub fn met_by(matches: &ByPlaceMember, place: usize, members: u64) -> u64
    requires { place < 14 }
    ensures { result ≡ met_of matches.now place members }
{
    let mut met: u64 = 0;
    let mut rest = members;
    while 0 < rest {
        let y = sets::least(rest);
        met = sets::union(met, matches[RoleFile::MEMBERS * place + y]);
        rest = sets::without_least(rest);
    }
    met
}

// Who passes all conjuncts but the 255 of the covering rule of some members, on a side, by the table of who meets each.
pub fn passing<'a>(
    met: &'a ByAttribute,
    knowing: &'a ByPlace,
    attributes: usize,
    side: usize,
    members: u64,
    count: usize,
) -> u64
    requires { (attributes ≤ 6) × (side < 2) × (count ≤ 64) }
    ensures { (matches : List ℕ)
        → Met matches side members (drop (6 * side) met.now)
        → result ≡ passing_of matches knowing.now attributes side false members count }
{
    let mut m = sets::below(count);
    for a in 0..attributes {
        // An attribute that one of them does not know gives no conjunct.
        if sets::within(members, knowing[RoleFile::CONJUNCTS * side + a]) {
            m = sets::meet(m, met[RoleFile::ATTRIBUTES * side + a]);
        }
    }
    m
}
