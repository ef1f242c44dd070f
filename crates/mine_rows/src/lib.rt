// What the atoms of a rule join, user by user.
#![tactic(auto)]

ghost use Rattle.std.specs.Prelude.{◌≡◌, ◌<◌};
ghost use Rattle.role_record.specs.Record.{table_of};
ghost use Rattle.mine_corners.specs.Pairing.{words_in};
ghost use Rattle.sets.specs.Sets.{mask_of};
ghost use Rattle.mine_rows.specs.Rows.{everything, narrowed_rows, joined_rows, row_in, is_full, open_users};

use mine_corners::Group;
use role_record::{ByMember, Links, RoleFile};

// All resources for every user.
fn widen_rows(out: &mut ByMember)
    ensures { out.new ≡ table_of 64 (λ u. everything) }
{
    let all = sets::below(RoleFile::RESOURCES);
    for u in 0..RoleFile::MEMBERS {
        out[u] = all;
    }
}

// Of each user's resources those that an atom joins with the user.
fn narrow_rows(links: &Links, atom: usize, out: &mut ByMember)
    requires { atom < 36 }
    ensures { out.new ≡ narrowed_rows links.now atom out.old }
{
    for u in 0..RoleFile::MEMBERS {
        out[u] = sets::meet(out[u], links[RoleFile::MEMBERS * atom + u]);
    }
}

// The resources that all atoms of a group join with each user, whatever the table held.
pub fn joined_rows(links: &Links, atoms: u64, out: &mut ByMember)
    ensures { out.new ≡ joined_rows links.now atoms }
{
    widen_rows(out);
    let mut rest = sets::meet(atoms, sets::below(RoleFile::ATOMS));
    while 0 < rest {
        narrow_rows(links, sets::least(rest), out);
        rest = sets::without_least(rest);
    }
}

// The group's resources for a user, from the rows.
pub fn row_in(rows: &ByMember, g: Group, user: usize) -> u64
    requires { user < 64 }
    ensures { result ≡ row_in rows.now (words_in g) user }
{
    if sets::has(g.users, user) {
        return sets::meet(rows[user], g.resources);
    }
    0
}

// Whether the atoms join a user of the group with all its resources.
fn is_full(rows: &ByMember, g: Group, user: usize) -> bool
    requires { user < 64 }
    ensures { result ≡ is_full rows.now (words_in g) user }
{
    sets::has(g.users, user) & sets::within(g.resources, rows[user])
}

// Those users.
pub fn full_users(rows: &ByMember, g: Group) -> u64
    ensures { result ≡ mask_of 64 (is_full rows.now (words_in g)) }
{
    let mut m: u64 = 0;
    for u in 0..RoleFile::MEMBERS {
        if is_full(rows, g, u) {
            m = sets::with(m, u);
        }
    }
    m
}

// The users to look at for what a rule adds: where it adds no resources, not those that have all.
pub fn open_users(g: Group, full: u64, who: u64, what: u64) -> u64
    ensures { result ≡ open_users (words_in g) full who what }
{
    if sets::within(what, g.resources) {
        return sets::without(who, full);
    }
    who
}
