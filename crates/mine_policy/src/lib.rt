// Mining by the tables of a record.
#![tactic(auto)]

ghost use Rattle.std.specs.Prelude.{◌≤◌, length, get_or, ◌≡◌};
ghost use Rattle.mine_parts.specs.Layout.{most_parts, room_in};
ghost use Rattle.role_record.specs.Record.{Sized, WithinLimits};
ghost use Rattle.files.specs.Calls.{cuts_ok, mined_bytes};
ghost use Rattle.policy.specs.Mined.{merge_count};
ghost use Rattle.policy.specs.Policy.{Policy, setting_of, roles_in};
ghost use Rattle.write_answer.specs.Stages.{OfRecord, OutcomeFor, KeptFor, MergedBy};
ghost use Rattle.mine_groups.specs.Scratch.{Merged, all_parts, Stands};
ghost use Rattle.sets.specs.Tests.{Is};

use role_record::{
    ByAttribute, ByPlaceMember, ByRole, ByRoleOperation, BySide, CountBySide, RoleFile, Sizes,
    Values,
};
use write_answer::{Attempt, Merging};

// Merges the parts of a policy, by the tables of its record and of its distinct values.
fn merge_parts<'a>(
    known: &'a ByAttribute,
    kinds: &'a BySide,
    domains: &'a ByAttribute,
    attributes: &'a CountBySide,
    holders: &'a ByRole,
    permissions: &'a ByRoleOperation,
    sizes: Sizes,
    cuts: &[u8],
    distinct: &'a ByPlaceMember,
    having: &'a ByPlaceMember,
    scratch: &mut [u64],
) -> Merging
    requires { WithinLimits sizes
        × (get_or attributes.now 0 0 ≤ 6)
        × (get_or attributes.now 1 0 ≤ 6)
        × (most_parts ≤ room_in scratch.old)
        × Is (cuts_ok cuts.now sizes.roles) }
    ensures { (length scratch.new ≡ length scratch.old)
        × Stands scratch.new result.starts
        × ((F : Policy)
        → Sized F
        → MergedBy F known.now kinds.now domains.now attributes.now
        holders.now permissions.now distinct.now having.now
        sizes.users sizes.resources sizes.operations sizes.roles
        → (result.made ≡ merge_count (setting_of F) (roles_in F) cuts.now)
        × Merged F cuts.now (all_parts result.starts) scratch.new
        × KeptFor F result.starts scratch.new result.kept) }
{
    let mut places = [0u64; RoleFile::PLACES];
    mine_matches::known_places(sizes.users, sizes.resources, known, &mut places);
    let mut links = [0u64; RoleFile::ATOMS * RoleFile::USERS];
    grant_tables::links(
        kinds,
        domains,
        sizes.resources,
        distinct,
        having,
        &mut links,
    );
    let mut matches = [0u64; RoleFile::PLACES * RoleFile::MEMBERS];
    mine_tables::matches(&places, kinds, distinct, having, &mut matches);
    let mut starts = [0usize; RoleFile::ROLES + 1];
    let merges = mine_merge::merge(
        scratch,
        &mut starts,
        cuts,
        &links,
        &matches,
        &places,
        attributes,
        holders,
        permissions,
        sizes,
    );
    let mut kept = [0u64; mine_parts::MOST];
    write_kept::kept_places(
        &links,
        &matches,
        &places,
        attributes,
        sizes,
        scratch,
        starts[RoleFile::ROLES],
        &mut kept,
    );
    Merging {
        made: merges,
        kept: kept,
        starts: starts,
    }
}

// Mining by the record of a policy.
pub fn mine_record<'a>(
    known: &'a ByAttribute,
    values: &'a Values,
    kinds: &'a BySide,
    domains: &'a ByAttribute,
    attributes: &'a CountBySide,
    holders: &'a ByRole,
    permissions: &'a ByRoleOperation,
    sizes: Sizes,
    cuts: &[u8],
    scratch: &mut [u64],
    out: &mut [u8],
) -> Attempt
    requires { WithinLimits sizes
        × (get_or attributes.now 0 0 ≤ 6)
        × (get_or attributes.now 1 0 ≤ 6)
        × (most_parts ≤ room_in scratch.old)
        × Is (cuts_ok cuts.now sizes.roles) }
    ensures { (F : Policy)
        → Sized F
        → OfRecord F known.now values.now kinds.now domains.now
        attributes.now holders.now permissions.now sizes.users
        sizes.resources sizes.operations sizes.roles
        → OutcomeFor F cuts.now out.old result.wrote out.new
        × (result.bytes ≡ length (mined_bytes 2 F cuts.now)) }
{
    let mut distinct = [0u64; RoleFile::PLACES * RoleFile::MEMBERS];
    let mut having = [0u64; RoleFile::PLACES * RoleFile::MEMBERS];
    grant_distinct::distinct_values(
        known,
        values,
        holders,
        sizes.users,
        sizes.resources,
        sizes.roles,
        &mut distinct,
        &mut having,
    );
    let mut inside = [0u64; RoleFile::PLACES * RoleFile::MEMBERS];
    mine_distinct::inside_values(kinds, &distinct, &having, &mut inside);
    let merging = merge_parts(
        known,
        kinds,
        domains,
        attributes,
        holders,
        permissions,
        sizes,
        cuts,
        &distinct,
        &having,
        scratch,
    );
    write_answer::write_groups(
        merging,
        &distinct,
        &having,
        &inside,
        kinds,
        permissions,
        sizes,
        attributes,
        scratch,
        out,
    )
}
