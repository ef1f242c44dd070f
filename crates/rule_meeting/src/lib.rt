// Who meets one listed value of a conjunct, from the loaded role file's tables.
#![tactic(auto)]

ghost use Rattle.std.specs.Prelude.{◌≡◌, ◌+◌, ◌*◌, ◌≤◌, ◌<◌, get_or};
ghost use Rattle.sets.specs.Sets.{mask_of};
ghost use Rattle.rule_meeting.specs.Meeting.{order, meets_at, holds_all, meeting_of, count_by};
ghost use Rattle.role_record.specs.Record.{WithinLimits, sizes_of};

use role_record::{ByRole, RoleFile, Values};
use role_scan::{Containing, Equal};
use rule_commands::ListedValue;

// Whose values in a column, known or not, pass for the listed one: by containment, or by equality.
fn passing(values: &Values, column: usize, v: u64, contained: bool) -> u64
    requires { column < 12 }
    ensures { result ≡ mask_of 64 (λ x. order contained v (get_or values.now (64 * column + x) 0)) }
{
    if contained {
        return role_scan::passing(values, column, &Containing(v));
    }
    role_scan::passing(values, column, &Equal(v))
}

// Who meets a listed value of the attribute in a column.
fn in_column(
    known: u64,
    values: &Values,
    column: usize,
    count: usize,
    v: u64,
    contained: bool,
) -> u64
    requires { (column < 12) × (count ≤ 64) }
    ensures { result ≡ mask_of count (meets_at known values.now column v contained) }
{
    let knowing = sets::meet(known, passing(values, column, v, contained));
    sets::meet(sets::below(count), knowing)
}

// Who holds all roles of a set.
fn holding_all(holders: &ByRole, users: usize, roles: usize, v: u64) -> u64
    requires { (users ≤ 64) × (roles ≤ 32) }
    ensures { result ≡ mask_of users (holds_all holders.now roles v) }
{
    let mut m = sets::below(users);
    for k in 0..roles {
        if sets::has(v, k) {
            m = sets::meet(m, holders[k]);
        }
    }
    m
}

// Who meets a listed value of an attribute: of side 0 users, of side 1 resources; 255 is the roles held, or the number itself.
pub fn meeting(v: ListedValue, f: &RoleFile) -> u64
    requires { (v.side < 2) × WithinLimits (sizes_of f.now) }
    ensures { result
        ≡ meeting_of v.side v.set v.attribute v.value (count_by v.side f.now.users f.now.resources) f.now.roles
        f.now.known f.now.values f.now.holders }
{
    if v.attribute < RoleFile::ATTRIBUTES {
        let column = RoleFile::ATTRIBUTES * v.side + v.attribute;
        if v.side == 0 {
            return in_column(f.known[column], &f.values, column, f.users, v.value, v.set);
        }
        return in_column(
            f.known[column],
            &f.values,
            column,
            f.resources,
            v.value,
            false,
        );
    }
    if v.side == 0 {
        return holding_all(&f.holders, f.users, f.roles, v.value);
    }
    sets::with(0, v.value as usize)
}
