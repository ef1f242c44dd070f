// Writes a rule file whole: the first command, which says which shape it is made for, and the rules behind it.
#![tactic(auto)]

ghost use Rattle.std.specs.Prelude.{length, ◌∷◌, ◌≡◌, ◌+◌, ◌≤◌};
ghost use Rattle.mine_groups.specs.Scratch.{Stands};
ghost use Rattle.role_record.specs.Record.{WithinLimits, FewAttributes};
ghost use Rattle.rule_opening.specs.Opening.{shape_in};
ghost use Rattle.write_lines.specs.Writing.{wrote};
ghost use Rattle.write_measure.specs.FileTable.{file_bytes};
ghost use Rattle.write_roles.specs.GroupRoles.{RolesTable};
ghost use Rattle.write_shape.specs.ShapedFile.{shaped_bytes};

use files::rule_byte;
use mine_parts::{ByPart, Starts};
use role_record::{ByPlaceMember, ByRoleOperation, BySide, CountBySide, Sizes};

// The first byte, as it is stored.
const SHAPE: u8 = rule_byte::SHAPE as u8;

// Writes the 20 and its operands at the front of a slice.
fn put_shape(sizes: Sizes, attributes: &CountBySide, out: &mut [u8])
    requires { WithinLimits sizes × FewAttributes attributes.now × (7 ≤ length out.old) }
    ensures { out.new ≡ wrote (0x20 ∷ shape_in sizes attributes.now) out.old }
{
    out[0] = SHAPE;
    out[1] = sizes.users as u8;
    out[2] = sizes.resources as u8;
    out[3] = sizes.operations as u8;
    out[4] = sizes.roles as u8;
    out[5] = attributes[0] as u8;
    out[6] = attributes[1] as u8;
}

// Writes the rule file of merged groups, where there is room for it.
pub fn write_shaped<'a>(
    kept: &'a ByPart,
    distinct: &'a ByPlaceMember,
    having: &'a ByPlaceMember,
    inside: &'a ByPlaceMember,
    kinds: &'a BySide,
    permissions: &'a ByRoleOperation,
    group_roles: &'a ByPart,
    sizes: Sizes,
    attributes: &'a CountBySide,
    starts: &'a Starts,
    scratch: &'a [u64],
    out: &mut [u8],
)
    requires { WithinLimits sizes
        × FewAttributes attributes.now
        × Stands scratch.now starts.now
        × RolesTable starts.now scratch.now group_roles.now
        × (7
        + length
        (file_bytes kept.now distinct.now having.now inside.now kinds.now permissions.now
        sizes.operations starts.now scratch.now)
        ≤ length out.old) }
    ensures { out.new
        ≡ wrote
        (shaped_bytes (shape_in sizes attributes.now)
        (file_bytes kept.now distinct.now having.now inside.now
        kinds.now permissions.now sizes.operations starts.now
        scratch.now))
        out.old }
{
    put_shape(sizes, attributes, out);
    write_file::write_rules(
        kept,
        distinct,
        having,
        inside,
        kinds,
        permissions,
        group_roles,
        sizes.operations,
        starts,
        scratch,
        &mut out[rule_opening::BYTES..],
    );
}
