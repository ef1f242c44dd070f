// The steps of reading a rule file beside a loaded role file. Of a rule nothing is kept but its summary; of the rules before it only what
// they grant together, the first of them that grants other than its parts, and which parts were listed.
#![tactic(auto)]

ghost use Rattle.std.specs.Prelude.{length, ◌≡◌, ◌+◌, ◌^◌, ◌≤◌, ◌<◌};
ghost use Rattle.grant_blocks.specs.Rows.{added_rows};
ghost use Rattle.role_record.specs.Cells.{most_operations, grid_cells};
ghost use Rattle.rule_notes.specs.Tally.{begun_with, opened_with, counted_with, open_rows, closed_with, finished_with, finished_grid, may_close, is_second, follows_with, levelled_with};
ghost use Rattle.rule_notes.specs.LineSteps.{PartWithin, listed_after, seen_by, again_by};
ghost use Rattle.role_record.specs.Record.{WithinLimits, sizes_of};

use files::rule_byte;
use role_record::{ByPlace, ByRole, Links, RoleFile};
use rule_commands::{Raw, RuleCommand};
use rule_notes::Tally;

// The places of the 255s: the users', behind their six attributes, and the resources', behind theirs.
const OWN_ROLES: usize = RoleFile::ATTRIBUTES;

const OWN_NUMBER: usize = RoleFile::CONJUNCTS + RoleFile::ATTRIBUTES;

// Before the first command.
pub fn begun() -> Tally
    ensures { result ≡ begun_with }
{
    Tally {
        inside: false,
        asked: 0,
        atoms: 0,
        operations: 0,
        listing: false,
        telling: false,
        last: Raw {
            byte: rule_byte::OPENS,
            first: 0,
            second: 0,
        },
        rules: 0,
        stray: None,
    }
}

// Behind a 21: nothing of the rule is there yet.
pub fn opened(k: Tally) -> Tally
    ensures { result ≡ opened_with k }
{
    Tally {
        inside: true,
        rules: k.rules,
        stray: k.stray,
        ..begun()
    }
}

// One more rule is complete; it grants the same as its parts, or it is stray.
fn counted(k: Tally, same: bool) -> Tally
    requires { k.rules + 1 < 2 ^ 64 }
    ensures { result ≡ counted_with k same }
{
    let mut n = k;
    n.rules = k.rules + 1;
    if !same && k.stray.is_none() {
        n.stray = Some(k.rules);
    }
    n
}

// Closes the open rule: joins what it grants to what the rules before it do, and counts it. It has no grid of its own: its rows and its
// operations say what it grants.
fn close<'a>(
    k: Tally,
    met: &'a ByPlace,
    listed: &'a [u64],
    f: &'a RoleFile,
    links: &'a Links,
    grid: &mut [u64],
) -> Tally
    requires { WithinLimits (sizes_of f.now)
        × (k.rules + 1 < 2 ^ 64)
        × (length listed.now ≡ grid_cells f.now.operations)
        × (length grid.old ≡ grid_cells f.now.operations) }
    ensures { (result
        ≡ closed_with k met.now listed.now links.now f.now.users
        f.now.resources f.now.operations)
        × (grid.new
        ≡ added_rows f.now.operations
        (open_rows k met.now links.now f.now.users f.now.resources) k.operations
        grid.old) }
{
    let mut rows = [0u64; RoleFile::MEMBERS];
    rule_grants::rule_rows(
        met,
        k.asked,
        k.atoms,
        &f.kinds,
        links,
        f.users,
        f.resources,
        &mut rows,
    );
    grant_blocks::add_rows(&rows, k.operations, f.operations, grid);
    let same = grant_differences::same_rows(&rows, k.operations, f.operations, listed);
    counted(k, same)
}

// Whether a 21 or 2F may stand here: the open rule, if there is one, has its operations, a part and its level.
pub fn may_close(k: Tally) -> bool
    ensures { result ≡ may_close k }
{
    if k.inside {
        if k.operations == 0 {
            return false;
        }
        if !k.telling {
            return false;
        }
        return k.listing;
    }
    true
}

// Closes the open rule, if there is one.
pub fn finish<'a>(
    k: Tally,
    met: &'a ByPlace,
    listed: &'a [u64],
    f: &'a RoleFile,
    links: &'a Links,
    grid: &mut [u64],
) -> Tally
    requires { WithinLimits (sizes_of f.now)
        × (k.rules + 1 < 2 ^ 64)
        × (length listed.now ≡ grid_cells f.now.operations)
        × (length grid.old ≡ grid_cells f.now.operations) }
    ensures { (result
        ≡ finished_with k met.now listed.now links.now f.now.users
        f.now.resources f.now.operations)
        × (grid.new
        ≡ finished_grid k met.now links.now f.now.users f.now.resources
        f.now.operations grid.old) }
{
    if k.inside {
        return close(k, met, listed, f, links, grid);
    }
    k
}

// Whether a line is a 26 or a 29 in a rule that has one. A legal 26 is not zero.
fn is_second(k: Tally, byte: usize) -> bool
    ensures { result ≡ is_second k byte }
{
    if byte == rule_byte::OPERATIONS {
        return k.operations != 0;
    }
    if byte == rule_byte::LEVEL {
        return k.telling;
    }
    false
}

// Whether a line other than 21 and 2F may stand here: a rule is open, the line comes after the last one, and it is no second 26 or 29.
pub fn follows(k: Tally, line: Raw) -> bool
    ensures { result ≡ follows_with k line }
{
    if k.inside {
        if is_second(k, line.byte) {
            return false;
        }
        return rule_commands::before(k.last, line);
    }
    false
}

// Whether a line, if it is a 29, tells the level of the open rule: the conjuncts all stand before it.
pub fn levelled(k: Tally, line: Raw) -> bool
    ensures { result ≡ levelled_with k line }
{
    if line.byte != rule_byte::LEVEL {
        return true;
    }
    let roles = sets::has(k.asked, OWN_ROLES);
    let numbers = sets::has(k.asked, OWN_NUMBER);
    line.first == rule_levels::level(roles, numbers)
}

// The grid of the parts that the open rule lists, after a legal command of it.
pub fn join_part(c: RuleCommand, f: &RoleFile, listed: &mut [u64])
    requires { PartWithin c
        × (f.now.operations ≤ most_operations)
        × (length listed.old ≡ grid_cells f.now.operations) }
    ensures { listed.new
        ≡ listed_after f.now.operations f.now.holders f.now.permissions listed.old c }
{
    if let RuleCommand::Part {
        role,
        operations: class,
    } = c
    {
        grant_grids::add_part(
            f.holders[role],
            &f.permissions,
            role,
            class,
            f.operations,
            listed,
        );
    }
}

// The tables of the parts that the rules list, once and again, after a legal command of the open rule.
pub fn list_part<'a>(c: RuleCommand, seen: &'a mut ByRole, again: &'a mut ByRole)
    requires { PartWithin c }
    ensures { (seen.new ≡ seen_by seen.old c)
        × (again.new ≡ again_by seen.old again.old c) }
{
    if let RuleCommand::Part { role, operations } = c {
        rule_listings::list(seen, again, role, operations);
    }
}
