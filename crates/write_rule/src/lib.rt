// Writes a mined rule. Each function writes at the front of the slice that it is lent, answers how many bytes it wrote, and leaves what stands
// behind them as it was.
#![tactic(auto)]

ghost use Rattle.std.specs.Prelude.{length, ◌≡◌, ◌≤◌, ◌<◌};
ghost use Rattle.mine_groups.specs.Scratch.{all_parts, Stands};
ghost use Rattle.mine_parts.specs.Layout.{room_in};
ghost use Rattle.write_lines.specs.Writing.{wrote};
ghost use Rattle.write_theory.specs.RuleTable.{rule_bytes_in, operation_bytes_in, level_bytes_in};
ghost use Rattle.write_roles.specs.GroupRoles.{roles_for};

use files::rule_byte;
use mine_parts::Starts;
use role_record::{ByPlaceMember, ByRoleOperation, BySide};
use write_theory::Outline;

// The line 26.
fn put_operations(scratch: &[u64], head: usize, out: &mut [u8]) -> usize
    requires { (head < room_in scratch.now)
        × (length (operation_bytes_in scratch.now head) ≤ length out.old) }
    ensures { (result ≡ length (operation_bytes_in scratch.now head))
        × (out.new ≡ wrote (operation_bytes_in scratch.now head) out.old) }
{
    let ops = mine_parts::operations_at(scratch, head);
    write_lines::put_three(
        out,
        rule_byte::OPERATIONS,
        (ops % 256) as usize,
        (ops / 256 % 256) as usize,
    );
    3
}

// The line 29: merging has left the group's level with its words.
fn put_level(scratch: &[u64], head: usize, out: &mut [u8]) -> usize
    requires { (head < room_in scratch.now)
        × (length (level_bytes_in scratch.now head) ≤ length out.old) }
    ensures { (result ≡ length (level_bytes_in scratch.now head))
        × (out.new ≡ wrote (level_bytes_in scratch.now head) out.old) }
{
    let level = mine_parts::level_at(scratch, head);
    write_lines::put_two(out, rule_byte::LEVEL, level);
    2
}

// Writes a rule, one section for each command byte in the order of the bytes: what opens it, its conjuncts, operations, atoms, parts and
// level. Answers how many bytes it has.
pub fn write_rule<'a>(
    distinct: &'a ByPlaceMember,
    having: &'a ByPlaceMember,
    inside: &'a ByPlaceMember,
    kinds: &'a BySide,
    permissions: &'a ByRoleOperation,
    operations: usize,
    starts: &'a Starts,
    scratch: &'a [u64],
    rule: Outline,
    out: &mut [u8],
) -> usize
    requires operations_bound { (operations ≤ 16) × Stands scratch.now starts.now × (rule.head < all_parts starts.now)
        × (rule.roles ≡ roles_for starts.now scratch.now
        rule.head) }
    requires kept_in_bounds { length
        (rule_bytes_in distinct.now having.now inside.now kinds.now permissions.now operations starts.now
        scratch.now rule.head rule.kept)
        ≤ length out.old }
    ensures { (result
        ≡ length
        (rule_bytes_in distinct.now having.now inside.now kinds.now
        permissions.now operations starts.now scratch.now rule.head rule.kept))
        × (out.new
        ≡ wrote
        (rule_bytes_in distinct.now having.now inside.now kinds.now
        permissions.now operations starts.now scratch.now rule.head rule.kept)
        out.old) }
{
    write_lines::put_one(out, rule_byte::OPENS);
    let mut at: usize = 1;
    at += write_conjuncts::put_conjuncts(
        distinct,
        having,
        inside,
        kinds,
        scratch,
        rule,
        &mut out[at..],
    );
    at += put_operations(scratch, rule.head, &mut out[at..]);
    at += write_atoms::put_atoms(rule.kept, &mut out[at..]);
    at += write_listings::put_parts(
        permissions,
        operations,
        starts,
        scratch,
        rule,
        &mut out[at..],
    );
    at += put_level(scratch, rule.head, &mut out[at..]);
    at
}
