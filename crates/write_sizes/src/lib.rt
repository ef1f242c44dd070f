// How many bytes a mined rule has and what it costs, counted without writing it.
#![tactic(auto)]

ghost use Rattle.std.specs.Prelude.{length, ◌≡◌, ◌≤◌, ◌<◌};
ghost use Rattle.mine_distinct.specs.InsideValues.{listed_by};
ghost use Rattle.mine_groups.specs.Scratch.{all_parts, Stands};
ghost use Rattle.mine_parts.specs.Layout.{room_in};
ghost use Rattle.sets.specs.Tests.{up_to, sum};
ghost use Rattle.write_roles.specs.GroupRoles.{roles_for};
ghost use Rattle.write_sizes.specs.Sizes.{lines_long, lines_cost, place_long_in, side_long_in};
ghost use Rattle.write_theory.specs.RuleLists.{place_cost_in, side_cost_in, rule_sums_in, classes_at};
ghost use Rattle.write_theory.specs.RuleTable.{rule_bytes_in};

use mine_parts::Starts;
use role_record::{ByPlaceMember, ByRoleOperation, BySide, RoleFile};
use write_cost::Sums;
use write_theory::Outline;

// How many bytes the lines of conjuncts have, and what they cost before they are weighed: their values and elements.
#[derive(Clone, Copy)]
struct Size {
    bytes: usize,
    cost: usize,
}

// How many bytes a rule has, and what its cost is made of.
#[derive(Clone, Copy)]
pub struct RuleSize {
    pub bytes: usize,
    pub sums: Sums,
}

// The size of a conjunct of some members at a place, from the numbers of the values that it lists: a line of a set has 10 bytes and costs
// its elements, one of a single value has 4 and costs 1.
fn listed_size<'a>(
    distinct: &'a ByPlaceMember,
    having: &'a ByPlaceMember,
    inside: &'a ByPlaceMember,
    set: bool,
    place: usize,
    members: u64,
) -> Size
    requires { place < 14 }
    ensures { (result.bytes
        ≡ lines_long set
        (listed_by distinct.now having.now inside.now place members))
        × (result.cost
        ≡ lines_cost set
        (listed_by distinct.now having.now inside.now place members)) }
{
    let mut n: usize = 0;
    let mut elements: usize = 0;
    for k in 0..RoleFile::MEMBERS {
        if mine_distinct::is_listed(having, inside, place, members, k) {
            n += 1;
            elements += sets::count(distinct[RoleFile::MEMBERS * place + k]);
        }
    }
    if set {
        return Size {
            bytes: 10 * n,
            cost: elements,
        };
    }
    Size {
        bytes: 4 * n,
        cost: n,
    }
}

// The size of the conjunct at a place; nothing where none is kept.
fn place_size<'a>(
    distinct: &'a ByPlaceMember,
    having: &'a ByPlaceMember,
    inside: &'a ByPlaceMember,
    kinds: &'a BySide,
    scratch: &'a [u64],
    head: usize,
    kept: u64,
    place: usize,
) -> Size
    requires { (head < room_in scratch.now) × (place < 14) }
    ensures { (result.bytes
        ≡ place_long_in distinct.now having.now inside.now kinds.now
        scratch.now head kept place)
        × (result.cost
        ≡ place_cost_in distinct.now having.now inside.now kinds.now
        scratch.now head kept place) }
{
    if sets::has(kept, place) {
        let members = mine_parts::members_at(scratch, head, place / RoleFile::CONJUNCTS);
        let set = write_places::set_place(kinds, place);
        return listed_size(distinct, having, inside, set, place, members);
    }
    Size { bytes: 0, cost: 0 }
}

// The size of the conjuncts of a side.
fn side_size<'a>(
    distinct: &'a ByPlaceMember,
    having: &'a ByPlaceMember,
    inside: &'a ByPlaceMember,
    kinds: &'a BySide,
    scratch: &'a [u64],
    head: usize,
    kept: u64,
    side: usize,
) -> Size
    requires { (head < room_in scratch.now) × (side < 2) }
    ensures { (result.bytes
        ≡ side_long_in distinct.now having.now inside.now kinds.now
        scratch.now head kept side)
        × (result.cost
        ≡ side_cost_in distinct.now having.now inside.now kinds.now
        scratch.now head kept side) }
{
    let mut bytes: usize = 0;
    let mut cost: usize = 0;
    for j in 0..RoleFile::CONJUNCTS {
        let place = RoleFile::CONJUNCTS * side + j;
        let size = place_size(distinct, having, inside, kinds, scratch, head, kept, place);
        bytes += size.bytes;
        cost += size.cost;
    }
    Size {
        bytes: bytes,
        cost: cost,
    }
}

// How many parts the rule lists. Only the roles that have a part in the group are looked at.
fn count_parts<'a>(
    permissions: &'a ByRoleOperation,
    operations: usize,
    starts: &'a Starts,
    scratch: &'a [u64],
    head: usize,
    roles: u64,
) -> usize
    requires { (operations ≤ 16) × Stands scratch.now starts.now × (head < all_parts starts.now)
        × (roles ≡ roles_for starts.now scratch.now head) }
    ensures { result
        ≡ sum
        (λ k. length
        (classes_at permissions.now operations starts.now scratch.now head k))
        (up_to 32) }
{
    let mut n: usize = 0;
    for role in sets::members(roles) {
        n += write_parts::count_classes(permissions, operations, starts, scratch, head, role);
    }
    n
}

// How many bytes the rule has that write_rule writes, and what its cost is made of. One byte opens the rule, three have its operations and
// two its level; a line of an atom has 3, one of a part 4.
pub fn rule_size<'a>(
    distinct: &'a ByPlaceMember,
    having: &'a ByPlaceMember,
    inside: &'a ByPlaceMember,
    kinds: &'a BySide,
    permissions: &'a ByRoleOperation,
    operations: usize,
    starts: &'a Starts,
    scratch: &'a [u64],
    rule: Outline,
) -> RuleSize
    requires { (operations ≤ 16) × Stands scratch.now starts.now × (rule.head < all_parts starts.now)
        × (rule.roles ≡ roles_for starts.now scratch.now
        rule.head) }
    ensures { (result.bytes
        ≡ length
        (rule_bytes_in distinct.now having.now inside.now kinds.now
        permissions.now operations starts.now scratch.now rule.head rule.kept))
        × (result.sums
        ≡ rule_sums_in distinct.now having.now inside.now kinds.now
        scratch.now rule.head rule.kept) }
{
    let head = rule.head;
    let kept = rule.kept;
    let users = side_size(distinct, having, inside, kinds, scratch, head, kept, 0);
    let resources = side_size(distinct, having, inside, kinds, scratch, head, kept, 1);
    let ops = sets::count(mine_parts::operations_at(scratch, head));
    let atoms = sets::count(write_places::atoms_kept(kept));
    let parts = count_parts(permissions, operations, starts, scratch, head, rule.roles);
    let sums = Sums {
        users: users.cost as u32,
        resources: resources.cost as u32,
        operations: ops as u32,
        atoms: atoms as u32,
    };
    RuleSize {
        bytes: 6 + users.bytes + resources.bytes + 3 * atoms + 4 * parts,
        sums: sums,
    }
}
