// Writes the rule file of merged groups, and measures it first.
#![tactic(auto)]

ghost use Rattle.std.specs.Prelude.{length, ◌≡◌, ◌≤◌, ◌<◌};
ghost use Rattle.write_measure.specs.FileTable.{file_bytes, rule_with};
ghost use Rattle.mine_groups.specs.Scratch.{all_parts, Stands};
ghost use Rattle.write_lines.specs.Writing.{wrote};
ghost use Rattle.write_roles.specs.GroupRoles.{roles_for, RolesTable};

use files::rule_byte;
use mine_parts::{ByPart, Starts};
use role_record::{ByPlaceMember, ByRoleOperation, BySide, RoleFile};
use write_theory::Outline;

// The last byte, as it is stored.
const ENDS: u8 = rule_byte::ENDS as u8;

// ---- one head

// Writes a rule at the front of a slice; nothing where its part is no head.
fn write_head<'a>(
    distinct: &'a ByPlaceMember,
    having: &'a ByPlaceMember,
    inside: &'a ByPlaceMember,
    kinds: &'a BySide,
    permissions: &'a ByRoleOperation,
    operations: usize,
    starts: &'a Starts,
    scratch: &'a [u64],
    rule: Outline,
    out: &mut [u8],
) -> usize
    requires { (operations ≤ 16)
        × Stands scratch.now starts.now
        × (rule.head < all_parts starts.now)
        × (rule.roles ≡ roles_for starts.now scratch.now rule.head)
        × (length
        (rule_with distinct.now having.now inside.now kinds.now permissions.now operations starts.now
        scratch.now rule.head rule.kept)
        ≤ length out.old) }
    ensures { (out.new
        ≡ wrote
        (rule_with distinct.now having.now inside.now kinds.now
        permissions.now operations starts.now scratch.now rule.head rule.kept)
        out.old)
        × (result
        ≡ length
        (rule_with distinct.now having.now inside.now kinds.now
        permissions.now operations starts.now scratch.now rule.head
        rule.kept)) }
{
    if mine_parts::is_head(scratch, rule.head) {
        return write_rule::write_rule(
            distinct,
            having,
            inside,
            kinds,
            permissions,
            operations,
            starts,
            scratch,
            rule,
            out,
        );
    }
    0
}

// Writes the rule file. A rule is written from the place where the rule before it ended.
pub fn write_rules<'a>(
    kept: &'a ByPart,
    distinct: &'a ByPlaceMember,
    having: &'a ByPlaceMember,
    inside: &'a ByPlaceMember,
    kinds: &'a BySide,
    permissions: &'a ByRoleOperation,
    group_roles: &'a ByPart,
    operations: usize,
    starts: &'a Starts,
    scratch: &'a [u64],
    out: &mut [u8],
)
    requires { (operations ≤ 16)
        × Stands scratch.now starts.now
        × RolesTable starts.now scratch.now group_roles.now
        × (length
        (file_bytes kept.now distinct.now having.now inside.now kinds.now permissions.now operations
        starts.now scratch.now)
        ≤ length out.old) }
    ensures { out.new
        ≡ wrote
        (file_bytes kept.now distinct.now having.now inside.now
        kinds.now permissions.now operations starts.now scratch.now)
        out.old }
{
    let parts = starts[RoleFile::ROLES];
    let mut at: usize = 0;
    for i in 0..parts {
        let rule = Outline {
            head: i,
            kept: kept[i],
            roles: group_roles[i],
        };
        at += write_head(
            distinct,
            having,
            inside,
            kinds,
            permissions,
            operations,
            starts,
            scratch,
            rule,
            &mut out[at..],
        );
    }
    out[at] = ENDS;
}
