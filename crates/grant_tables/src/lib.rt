// The table of the atoms that hold, filled from the tables of distinct values. Each pair of distinct values is looked at once, and its word
// is joined to the words of all who have the value.
#![tactic(auto)]

ghost use Rattle.std.specs.Prelude.{List, ◌≡◌, ℕ, ◌+◌, ◌*◌, ◌≤◌, ◌<◌};
ghost use Rattle.grant_distinct.specs.Distinct.{distinct_table, having_table};
ghost use Rattle.grant_grids.specs.Links.{link_table};
ghost use Rattle.grant_joins.specs.Tables.{link_atom, linked_to, links_by, looked_at};
ghost use Rattle.grant_joins.specs.Tables.{value_count};

use role_record::{ByAttribute, ByPlaceMember, ByRole, BySide, Links, RoleFile, Values};

// The resources with which the atom over user attribute a and resource attribute b joins the user value number k.
fn linked_to<'a>(
    kinds: &'a BySide,
    resources: usize,
    distinct: &'a ByPlaceMember,
    having: &'a ByPlaceMember,
    a: usize,
    b: usize,
    k: usize,
    count: usize,
) -> u64
    requires { (a < 6) × (b < 6) × (k < 64) × (count ≡ value_count having.now (7 + b)) }
    ensures { result ≡ linked_to distinct.now having.now kinds.now resources a b k }
{
    let left = sets::has(kinds[0], a);
    let right = sets::has(kinds[1], b);
    let found = grant_joins::joined(
        distinct,
        having,
        RoleFile::CONJUNCTS + b,
        count,
        left,
        right,
        false,
        distinct[RoleFile::MEMBERS * a + k],
    );
    sets::meet(sets::below(resources), found)
}

// How many user values an atom looks at: across domains none.
fn looked_at<'a>(domains: &'a ByAttribute, having: &'a ByPlaceMember, a: usize, b: usize) -> usize
    requires { (a < 6) × (b < 6) }
    ensures { result ≡ looked_at having.now domains.now a b }
{
    if role_record::same_domain(domains, a, b) {
        return grant_joins::number(having, a);
    }
    0
}

// The words of an atom, of which `links` below has 36: those of whoever has a user value, value by value. Nobody has an unknown value, so
// that it satisfies no atom, on either side.
fn link_atom<'a>(
    kinds: &'a BySide,
    domains: &'a ByAttribute,
    resources: usize,
    distinct: &'a ByPlaceMember,
    having: &'a ByPlaceMember,
    atom: usize,
    out: &mut Links,
)
    requires { atom < 36 }
    ensures { out.new
        ≡ link_atom distinct.now having.now kinds.now
        domains.now resources atom
        out.old }
{
    let a = atom / RoleFile::ATTRIBUTES;
    let b = atom % RoleFile::ATTRIBUTES;
    let others = grant_joins::number(having, RoleFile::CONJUNCTS + b);
    let count = looked_at(domains, having, a, b);
    for k in 0..count {
        let word = linked_to(kinds, resources, distinct, having, a, b, k, others);
        grant_joins::spread(atom, having[RoleFile::MEMBERS * a + k], word, out);
    }
}

// The atoms that hold, whatever the table held, if the other tables are those of some values: word 64 * (6 * a + b) + user is the set of
// the resources of which the atom over user attribute a and resource attribute b holds with the user.
pub fn links<'a>(
    kinds: &'a BySide,
    domains: &'a ByAttribute,
    resources: usize,
    distinct: &'a ByPlaceMember,
    having: &'a ByPlaceMember,
    out: &mut Links,
)
    requires { resources ≤ 64 }
    ensures { (known values holders : List ℕ)
        → (users roles : ℕ)
        → distinct.now ≡ distinct_table known values holders users resources roles
        → having.now ≡ having_table known values holders users resources roles
        → out.new ≡ link_table known values kinds.now domains.now resources }
{
    role_record::clear(out);
    for atom in 0..RoleFile::ATOMS {
        link_atom(kinds, domains, resources, distinct, having, atom, out);
    }
}

// The same of the values themselves, where nothing else needs the tables of distinct values.
pub fn links_of_values<'a>(
    known: &'a ByAttribute,
    values: &'a Values,
    kinds: &'a BySide,
    domains: &'a ByAttribute,
    holders: &'a ByRole,
    users: usize,
    resources: usize,
    roles: usize,
    out: &mut Links,
)
    requires { (resources ≤ 64) × (roles ≤ 32) }
    ensures { out.new ≡ link_table known.now values.now kinds.now
        domains.now resources }
{
    let mut distinct = [0u64; RoleFile::PLACES * RoleFile::MEMBERS];
    let mut having = [0u64; RoleFile::PLACES * RoleFile::MEMBERS];
    grant_distinct::distinct_values(
        known,
        values,
        holders,
        users,
        resources,
        roles,
        &mut distinct,
        &mut having,
    );
    links(kinds, domains, resources, &distinct, &having, out);
}
