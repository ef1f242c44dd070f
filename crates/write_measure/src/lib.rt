// How long the rule file is, how many rules it has, and what its cost is made of, without writing it.
#![tactic(auto)]

ghost use Rattle.std.specs.Prelude.{length, cond, ◌≡◌, ◌≤◌, ◌<◌};
ghost use Rattle.write_measure.specs.FileTable.{measured_of, sums_with, rule_with};
ghost use Rattle.mine_groups.specs.Scratch.{all_parts, Stands};
ghost use Rattle.write_cost.specs.CostSums.{no_sums};
ghost use Rattle.write_roles.specs.GroupRoles.{roles_for, RolesTable};

use mine_parts::{ByPart, Starts};
use role_record::{ByPlaceMember, ByRoleOperation, BySide, RoleFile};
use write_cost::Sums;
use write_sizes::RuleSize;
use write_theory::Outline;

// The bytes of a rule file, its rules, and what their cost is made of.
#[derive(Clone, Copy)]
pub struct Measured {
    pub bytes: usize,
    pub rules: usize,
    pub sums: Sums,
}

// What no rule has.
fn no_sums() -> Sums
    ensures { result ≡ no_sums }
{
    Sums {
        users: 0,
        resources: 0,
        operations: 0,
        atoms: 0,
    }
}

// How long a rule is and what its cost is made of; nothing where its part is no head.
fn size_head<'a>(
    distinct: &'a ByPlaceMember,
    having: &'a ByPlaceMember,
    inside: &'a ByPlaceMember,
    kinds: &'a BySide,
    permissions: &'a ByRoleOperation,
    operations: usize,
    starts: &'a Starts,
    scratch: &'a [u64],
    rule: Outline,
) -> RuleSize
    requires { (operations ≤ 16)
        × Stands scratch.now starts.now
        × (rule.head < all_parts starts.now)
        × (rule.roles ≡ roles_for starts.now scratch.now rule.head) }
    ensures { (result.bytes
        ≡ length
        (rule_with distinct.now having.now inside.now kinds.now
        permissions.now operations starts.now scratch.now rule.head rule.kept))
        × (result.sums
        ≡ sums_with distinct.now having.now inside.now kinds.now
        scratch.now rule.head rule.kept) }
{
    if mine_parts::is_head(scratch, rule.head) {
        return write_sizes::rule_size(
            distinct,
            having,
            inside,
            kinds,
            permissions,
            operations,
            starts,
            scratch,
            rule,
        );
    }
    RuleSize {
        bytes: 0,
        sums: no_sums(),
    }
}

fn one_if(b: bool) -> usize
    ensures { result ≡ cond b 1 0 }
{
    if b { 1 } else { 0 }
}

// ---- all heads

// Measures the rule file: its rules are counted, and none is written.
pub fn measure<'a>(
    kept: &'a ByPart,
    distinct: &'a ByPlaceMember,
    having: &'a ByPlaceMember,
    inside: &'a ByPlaceMember,
    kinds: &'a BySide,
    permissions: &'a ByRoleOperation,
    group_roles: &'a ByPart,
    operations: usize,
    starts: &'a Starts,
    scratch: &'a [u64],
) -> Measured
    requires { (operations ≤ 16)
        × Stands scratch.now starts.now
        × RolesTable starts.now scratch.now group_roles.now }
    ensures { result
        ≡ measured_of kept.now distinct.now having.now inside.now
        kinds.now permissions.now operations starts.now scratch.now }
{
    let mut bytes: usize = 0;
    let mut rules: usize = 0;
    let mut sums = no_sums();
    let parts = starts[RoleFile::ROLES];
    for i in 0..parts {
        let rule = Outline {
            head: i,
            kept: kept[i],
            roles: group_roles[i],
        };
        let size = size_head(
            distinct,
            having,
            inside,
            kinds,
            permissions,
            operations,
            starts,
            scratch,
            rule,
        );
        bytes += size.bytes;
        let of_rule = size.sums;
        sums = write_cost::add(sums, of_rule);
        rules += one_if(mine_parts::is_head(scratch, i));
    }
    Measured {
        bytes: bytes + 1,
        rules: rules,
        sums: sums,
    }
}
