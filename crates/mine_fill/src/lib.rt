// Fills scratch memory with the parts of a policy, by their numbers.
#![tactic(auto)]

ghost use Rattle.std.specs.Prelude.{length, get_or, List, ◌≡◌, ℕ, ◌+◌, ◌≤◌, ◌<◌};
ghost use Rattle.mine_fill.specs.Fill.{parts_before, part_words, FilledWith, FilledBy, RoleTo, StartsTo};
ghost use Rattle.mine_corners.specs.Pairing.{words_in};
ghost use Rattle.mine_parts.specs.Layout.{most_parts, room_in};
ghost use Rattle.role_record.specs.Cells.{most_operations};
ghost use Rattle.role_record.specs.Record.{WithinLimits};

use mine_corners::Group;
use mine_parts::PartWords;
use role_record::{
    ByPlace, ByPlaceMember, ByRole, ByRoleOperation, CountBySide, Links, RoleFile, Sizes,
};

// The words of the part of a role and its lowest operation.
fn group_of<'a>(
    links: &'a Links,
    attributes: &'a CountBySide,
    holders: &'a ByRole,
    permissions: &'a ByRoleOperation,
    operations: usize,
    role: usize,
    lead: usize,
) -> Group
    requires { (operations ≤ 16) × (role < 32) × (lead < most_operations) }
    ensures { words_in result
        ≡ part_words links.now attributes.now holders.now permissions.now
        operations (record { role = role; lead = lead }) }
{
    let users = holders[role];
    let resources = permissions[RoleFile::ROLES * lead + role];
    let class = grant_parts::class_of(permissions, role, operations, lead);
    let atoms = mine_words::atoms_of(links, attributes, users, resources);
    Group {
        users: users,
        resources: resources,
        operations: class,
        atoms: atoms,
    }
}

// What a part is stored with: its words with their level, its name, and itself as head.
fn words_of<'a>(
    links: &'a Links,
    matches: &'a ByPlaceMember,
    knowing: &'a ByPlace,
    attributes: &'a CountBySide,
    holders: &'a ByRole,
    permissions: &'a ByRoleOperation,
    sizes: Sizes,
    role: usize,
    lead: usize,
    i: usize,
) -> PartWords
    requires { WithinLimits sizes
        × (get_or attributes.now 0 0 ≤ 6)
        × (get_or attributes.now 1 0 ≤ 6)
        × (role < 32)
        × (lead < most_operations)
        × (i < most_parts) }
    ensures { FilledWith links.now matches.now knowing.now attributes.now
        holders.now permissions.now sizes.users sizes.resources sizes.operations
        (record { role = role; lead = lead }) i result.users result.resources result.operations result.rest }
{
    let g = group_of(
        links,
        attributes,
        holders,
        permissions,
        sizes.operations,
        role,
        lead,
    );
    let mut met = [0u64; RoleFile::SIDES * RoleFile::ATTRIBUTES];
    mine_widen::widen(matches, g.users, g.resources, &mut met);
    let level = mine_pairs::level_of_group(links, matches, &met, knowing, attributes, sizes, g);
    let name = mine_parts::name_of(role, lead);
    let rest = mine_parts::pack(g.atoms, level, name, i);
    PartWords {
        users: g.users,
        resources: g.resources,
        operations: g.operations,
        rest: rest,
    }
}

// Stores the part of a role and an operation under a number, if the operation leads one: the number behind it.
fn fill_part<'a>(
    scratch: &mut [u64],
    links: &'a Links,
    matches: &'a ByPlaceMember,
    knowing: &'a ByPlace,
    attributes: &'a CountBySide,
    holders: &'a ByRole,
    permissions: &'a ByRoleOperation,
    sizes: Sizes,
    role: usize,
    lead: usize,
    i: usize,
) -> usize
    requires { WithinLimits sizes
        × (get_or attributes.now 0 0 ≤ 6)
        × (get_or attributes.now 1 0 ≤ 6)
        × (role < 32)
        × (lead < most_operations)
        × (i < room_in scratch.old) }
    ensures { (length scratch.new ≡ length scratch.old)
        × ((t : List ℕ) (first : ℕ)
        → RoleTo links.now matches.now knowing.now attributes.now
        holders.now permissions.now sizes.users sizes.resources sizes.operations t
        scratch.old role first i lead
        → RoleTo links.now matches.now knowing.now attributes.now
        holders.now permissions.now sizes.users sizes.resources sizes.operations t
        scratch.new role first result (lead + 1)) }
{
    if grant_parts::is_part(holders, permissions, sizes.operations, role, lead) {
        let s = words_of(
            links,
            matches,
            knowing,
            attributes,
            holders,
            permissions,
            sizes,
            role,
            lead,
            i,
        );
        mine_parts::store(scratch, i, s);
        return i + 1;
    }
    i
}

// Stores the parts of a role from a number on: the number behind the last of them.
fn fill_role<'a>(
    scratch: &mut [u64],
    links: &'a Links,
    matches: &'a ByPlaceMember,
    knowing: &'a ByPlace,
    attributes: &'a CountBySide,
    holders: &'a ByRole,
    permissions: &'a ByRoleOperation,
    sizes: Sizes,
    role: usize,
    first: usize,
) -> usize
    requires { WithinLimits sizes
        × (get_or attributes.now 0 0 ≤ 6)
        × (get_or attributes.now 1 0 ≤ 6)
        × (role < 32)
        × (first + most_operations ≤ room_in scratch.old) }
    ensures { RoleTo links.now matches.now knowing.now attributes.now
        holders.now permissions.now sizes.users sizes.resources sizes.operations
        scratch.old scratch.new role first result sizes.operations }
{
    let operations = sizes.operations;
    let mut n = first;
    for lead in 0..operations {
        n = fill_part(
            scratch,
            links,
            matches,
            knowing,
            attributes,
            holders,
            permissions,
            sizes,
            role,
            lead,
            n,
        );
    }
    n
}

// Every part's words, whatever scratch held, and how many parts stand before each role: how many there are. A role that is not there has
// no holder, and so no part.
pub fn fill<'a>(
    scratch: &mut [u64],
    starts: &mut [usize],
    links: &'a Links,
    matches: &'a ByPlaceMember,
    knowing: &'a ByPlace,
    attributes: &'a CountBySide,
    holders: &'a ByRole,
    permissions: &'a ByRoleOperation,
    sizes: Sizes,
) -> usize
    requires { WithinLimits sizes
        × (get_or attributes.now 0 0 ≤ 6)
        × (get_or attributes.now 1 0 ≤ 6)
        × (most_parts ≤ room_in scratch.old)
        × (length starts.old ≡ 33) }
    ensures { (result ≤ most_parts)
        × (length scratch.new ≡ length scratch.old)
        × (result ≡ length (parts_before holders.now permissions.now sizes.operations 32))
        × FilledBy links.now matches.now knowing.now attributes.now
        holders.now permissions.now sizes.users sizes.resources sizes.operations
        scratch.new
        (parts_before holders.now permissions.now sizes.operations 32)
        × StartsTo holders.now permissions.now sizes.operations starts.new 33 }
{
    let mut n: usize = 0;
    for role in 0..RoleFile::ROLES {
        starts[role] = n;
        n = fill_role(
            scratch,
            links,
            matches,
            knowing,
            attributes,
            holders,
            permissions,
            sizes,
            role,
            n,
        );
    }
    starts[RoleFile::ROLES] = n;
    n
}
