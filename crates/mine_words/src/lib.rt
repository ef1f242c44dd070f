// The atoms among the words of a part: those true of all pairs of its holders and its resources, which stand in the loaded role file.
#![tactic(auto)]

ghost use Rattle.std.specs.Prelude.{◌≡◌, ◌^◌, ◌<◌};
ghost use Rattle.mine_words.specs.PartWords.{at_most_six, declared_atoms, true_of_user, atoms_of};

use role_record::{CountBySide, Links, RoleFile};

// The bits 0, 6, 12, 18, 24 and 30: the first atom of each user attribute.
const EVERY_ROW: u64 = 0x4104_1041;

// A declared number of attributes is at most six; a larger one counts as six.
fn at_most_six(n: usize) -> usize
    ensures { result ≡ at_most_six n }
{
    if n < RoleFile::ATTRIBUTES {
        n
    } else {
        RoleFile::ATTRIBUTES
    }
}

// The atoms over declared attributes: number 6 * user attribute + resource attribute.
fn declared(attributes: &CountBySide) -> u64
    ensures { result ≡ declared_atoms attributes.now }
{
    let rows = sets::below(RoleFile::ATTRIBUTES * at_most_six(attributes[0]));
    // The product has the columns in each of the six rows.
    let columns = sets::below(at_most_six(attributes[1])) * EVERY_ROW;
    sets::meet(rows, columns)
}

// Those of some atoms that join a user with all of these resources.
fn true_of_user(links: &Links, atoms: u64, user: usize, resources: u64) -> u64
    requires { (atoms < 2 ^ 36) × (user < 64) }
    ensures { result ≡ true_of_user links.now atoms user resources }
{
    let mut m: u64 = 0;
    for i in sets::members(atoms) {
        if sets::within(resources, links[RoleFile::MEMBERS * i + user]) {
            m = sets::with(m, i);
        }
    }
    m
}

// The atoms true of all pairs of these users and resources. Each user leaves few of them for the next to look at.
pub fn atoms_of<'a>(
    links: &'a Links,
    attributes: &'a CountBySide,
    users: u64,
    resources: u64,
) -> u64
    ensures { result ≡ atoms_of links.now attributes.now users resources }
{
    let mut m = declared(attributes);
    for user in sets::members(users) {
        m = true_of_user(links, m, user, resources);
    }
    m
}
