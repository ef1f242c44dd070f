// The answer of mining: the rules of merged groups measured, and written where there is room for them.
#![tactic(auto)]

ghost use Rattle.std.specs.Prelude.{ℕ, length, List, ◌≡◌};
ghost use Rattle.role_record.specs.Record.{Sized, WithinLimits, FewAttributes};
ghost use Rattle.files.specs.Calls.{mined_bytes};
ghost use Rattle.policy.specs.Mined.{merge_count};
ghost use Rattle.policy.specs.Policy.{Policy, setting_of, roles_in};
ghost use Rattle.write_answer.specs.MinedNumbers.{weighed_by};
ghost use Rattle.write_answer.specs.Stages.{OutcomeFor, WrittenBy};
ghost use Rattle.mine_groups.specs.Scratch.{Stands};

use files::Refusal;
use mine_parts::{ByPart, Starts};
use policy::Weights;
use role_record::{ByPlaceMember, ByRoleOperation, BySide, CountBySide, RoleFile, Sizes};
use write_cost::Sums;

// The bytes of the rule file, the parts of the role file, the rules and merges made, and the rules' cost by the weights that the call was
// handed.
#[derive(Clone, Copy, Debug, PartialEq, Eq)]
pub struct Mined {
    pub length: usize,
    pub parts: usize,
    pub rules: usize,
    pub merges: usize,
    pub cost: u64,
}

// The rules as they are written, before anything is weighed: what is told of them, and what their cost is made of.
#[derive(Clone, Copy)]
pub struct Written {
    pub length: usize,
    pub parts: usize,
    pub rules: usize,
    pub merges: usize,
    pub sums: Sums,
}

impl Written {
    // What a caller with these weights is told: only here are they looked at.
    pub fn weighed(self, weights: Weights) -> Mined
        ensures { result ≡ weighed_by weights self }
    {
        Mined {
            length: self.length,
            parts: self.parts,
            rules: self.rules,
            merges: self.merges,
            cost: write_cost::weigh(weights, self.sums),
        }
    }
}

// What came of mining, and how long the rule file is.
#[derive(Clone, Copy)]
pub struct Attempt {
    pub wrote: Result<Written, Refusal>,
    pub bytes: usize,
}

// What merging leaves: how many merges were made, the places that the rule of each group keeps, and where the parts of each role stand.
#[derive(Clone, Copy)]
pub struct Merging {
    pub made: usize,
    pub kept: ByPart,
    pub starts: Starts,
}

// Measures the rules of merged groups, and writes them if there is room for them.
pub fn write_groups<'a>(
    merging: Merging,
    distinct: &'a ByPlaceMember,
    having: &'a ByPlaceMember,
    inside: &'a ByPlaceMember,
    kinds: &'a BySide,
    permissions: &'a ByRoleOperation,
    sizes: Sizes,
    attributes: &'a CountBySide,
    scratch: &'a [u64],
    out: &mut [u8],
) -> Attempt
    requires { WithinLimits sizes × FewAttributes attributes.now × Stands scratch.now merging.starts }
    ensures { (F : Policy) (cuts : List ℕ)
        → Sized F
        → WrittenBy F cuts merging.kept distinct.now having.now inside.now
        kinds.now permissions.now sizes attributes.now merging.starts
        scratch.now
        → merging.made ≡ merge_count (setting_of F) (roles_in F) cuts
        → OutcomeFor F cuts out.old result.wrote out.new
        × (result.bytes ≡ length (mined_bytes 2 F cuts)) }
{
    let mut group_roles = [0u64; mine_parts::MOST];
    write_roles::roles_of_groups(scratch, &merging.starts, &mut group_roles);
    let m = write_measure::measure(
        &merging.kept,
        distinct,
        having,
        inside,
        kinds,
        permissions,
        &group_roles,
        sizes.operations,
        &merging.starts,
        scratch,
    );
    let bytes = rule_opening::BYTES + m.bytes;
    let lacks_room = out.len() < bytes;
    if lacks_room {
        return Attempt {
            wrote: Err(Refusal::ShortOutput),
            bytes,
        };
    }
    write_shape::write_shaped(
        &merging.kept,
        distinct,
        having,
        inside,
        kinds,
        permissions,
        &group_roles,
        sizes,
        attributes,
        &merging.starts,
        scratch,
        out,
    );
    let written = Written {
        length: bytes,
        parts: merging.starts[RoleFile::ROLES],
        rules: m.rules,
        merges: merging.made,
        sums: m.sums,
    };
    Attempt {
        wrote: Ok(written),
        bytes,
    }
}
