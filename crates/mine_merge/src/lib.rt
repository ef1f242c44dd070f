// Merging the groups of parts in scratch memory until no pair is left: within each run of roles that cuts make, and then over all.
#![tactic(auto)]

ghost use Rattle.std.specs.Prelude.{ltb, length, get_or, cond, List, ◌≡◌, ℕ, ◌+◌, ◌≤◌, ◌<◌};
ghost use Rattle.files.specs.Calls.{cuts_ok};
ghost use Rattle.mine_parts.specs.Layout.{most_parts, room_in, rest_at, name_in, is_head_at};
ghost use Rattle.role_record.specs.Record.{Sized, WithinLimits};
ghost use Rattle.mine_merge.specs.Progress.{Settled, Leading};
ghost use Rattle.mine_merge.specs.Steps.{Paired, Tables, head_count};
ghost use Rattle.mine_merge.specs.Traced.{Traced, alone};
ghost use Rattle.mine_heads.specs.Heads.{Marked};
ghost use Rattle.mine_theory.specs.Search.Frontier.{Groups};
ghost use Rattle.policy.specs.Mined.{merge_count};
ghost use Rattle.policy.specs.Policy.{Policy, setting_of, roles_in};
ghost use Rattle.sets.specs.Tests.{Is};
ghost use Rattle.mine_groups.specs.Scratch.{Merged, all_parts, Stands};

use mine_heads::{Marks, Window};
use mine_parts::Starts;
use mine_search::Seeking;
use role_record::{
    ByPlace, ByPlaceMember, ByRole, ByRoleOperation, CountBySide, Links, RoleFile, Sizes,
};

// Joins the group of head `start` with the first head of a window that it may be joined with, and what comes of it likewise, until there is
// none: how many joins were made. No pair of earlier heads is left before, so that at first only the heads behind `start` are tried.
fn settle_head<'a>(
    scratch: &mut [u64],
    window: Window,
    heads: &mut Marks,
    links: &'a Links,
    matches: &'a ByPlaceMember,
    knowing: &'a ByPlace,
    attributes: &'a CountBySide,
    sizes: Sizes,
    start: usize,
) -> usize
    requires { WithinLimits sizes
        × (get_or attributes.now 0 0 ≤ 6)
        × (get_or attributes.now 1 0 ≤ 6)
        × (window.first ≤ start)
        × (start < window.end)
        × (window.end ≤ room_in scratch.old)
        × Marked window.first window.end heads.old scratch.old
        × Is (is_head_at scratch.old start) }
    ensures { (length scratch.new ≡ length scratch.old)
        × (result + head_count scratch.new ≤ head_count scratch.old)
        × Marked window.first window.end heads.new scratch.new
        × ((F : Policy)
        → Sized F
        → Paired F links.now matches.now knowing.now attributes.now
        sizes.users sizes.resources sizes.operations
        → (parts : ℕ) (old : Groups (List ℕ)) (made : ℕ)
        → Settled F parts window.first window.end old scratch.old made start
        → Settled F parts window.first window.end old scratch.new (made + result) (start + 1))
        × ((i : ℕ)
        → name_in (rest_at scratch.new i) ≡ name_in (rest_at scratch.old i)) }
{
    let end = window.end;
    let mut met = [0u64; RoleFile::SIDES * RoleFile::ATTRIBUTES];
    let mut ready = [0u64; mine_heads::WORDS];
    mine_join::prepare(scratch, window, heads, &mut ready, &mut met, matches, start);
    let mut merges: usize = 0;
    let mut seeking = Seeking {
        head: start,
        from: start + 1,
    };
    loop {
        let other = mine_search::first_partner(
            scratch, window, &ready, links, matches, &met, knowing, attributes, sizes, seeking,
        );
        if end <= other.head {
            return merges;
        }
        let c = mine_join::join_found(
            scratch,
            window,
            heads,
            &mut ready,
            &mut met,
            matches,
            seeking.head,
            other,
        );
        merges += 1;
        // What comes of a join is a new group, for which the heads on both sides are tried.
        seeking = Seeking {
            head: c,
            from: window.first,
        };
    }
}

// The same, where most parts are no heads any more.
fn settle<'a>(
    scratch: &mut [u64],
    window: Window,
    heads: &mut Marks,
    links: &'a Links,
    matches: &'a ByPlaceMember,
    knowing: &'a ByPlace,
    attributes: &'a CountBySide,
    sizes: Sizes,
    start: usize,
) -> usize
    requires { WithinLimits sizes
        × (get_or attributes.now 0 0 ≤ 6)
        × (get_or attributes.now 1 0 ≤ 6)
        × (window.first ≤ start)
        × (start < window.end)
        × (window.end ≤ room_in scratch.old)
        × Marked window.first window.end heads.old scratch.old }
    ensures { (length scratch.new ≡ length scratch.old)
        × (result + head_count scratch.new ≤ head_count scratch.old)
        × Marked window.first window.end heads.new scratch.new
        × ((F : Policy)
        → Sized F
        → Paired F links.now matches.now knowing.now attributes.now
        sizes.users sizes.resources sizes.operations
        → (parts : ℕ) (old : Groups (List ℕ)) (made : ℕ)
        → Settled F parts window.first window.end old scratch.old made start
        → Settled F parts window.first window.end old scratch.new (made + result) (start + 1))
        × ((i : ℕ)
        → name_in (rest_at scratch.new i) ≡ name_in (rest_at scratch.old i)) }
{
    if mine_heads::is_marked(heads, start) {
        return settle_head(
            scratch, window, heads, links, matches, knowing, attributes, sizes, start,
        );
    }
    0
}

// Merges the groups of a window until no pair of it is left: how many merges were made.
fn merge_within<'a>(
    scratch: &mut [u64],
    window: Window,
    links: &'a Links,
    matches: &'a ByPlaceMember,
    knowing: &'a ByPlace,
    attributes: &'a CountBySide,
    sizes: Sizes,
) -> usize
    requires { WithinLimits sizes
        × (get_or attributes.now 0 0 ≤ 6)
        × (get_or attributes.now 1 0 ≤ 6)
        × (window.end ≤ room_in scratch.old) }
    ensures { (length scratch.new ≡ length scratch.old)
        × (result + head_count scratch.new ≤ head_count scratch.old)
        × ((F : Policy)
        → Sized F
        → Paired F links.now matches.now knowing.now attributes.now
        sizes.users sizes.resources sizes.operations
        → (parts : ℕ) (old : Groups (List ℕ))
        → window.end ≤ parts
        → Traced F parts scratch.old old
        → Settled F parts window.first window.end old scratch.new result window.end)
        × ((i : ℕ)
        → name_in (rest_at scratch.new i) ≡ name_in (rest_at scratch.old i)) }
{
    let mut heads = [0u64; mine_heads::WORDS];
    mine_heads::mark(scratch, window, &mut heads);
    let end = window.end;
    let mut made: usize = 0;
    for front in window.first..end {
        made += settle(
            scratch, window, &mut heads, links, matches, knowing, attributes, sizes, front,
        );
    }
    made
}

// The number behind the last part of a run of roles: a run ends at its cut, and the last one behind all roles.
fn run_end(starts: &Starts, cuts: &[u8], run: usize) -> usize
    requires { run < length cuts.now → get_or cuts.now run 0 ≤ 32 }
    ensures { result
        ≡ cond (ltb run (length cuts.now)) (get_or starts.now (get_or cuts.now run 0) 0)
        (all_parts starts.now) }
{
    if run < cuts.len() {
        return starts[cuts[run] as usize];
    }
    starts[RoleFile::ROLES]
}

// Merges within each run of roles that the cuts make: how many merges were made.
fn merge_runs<'a>(
    scratch: &mut [u64],
    starts: &Starts,
    cuts: &[u8],
    links: &'a Links,
    matches: &'a ByPlaceMember,
    knowing: &'a ByPlace,
    attributes: &'a CountBySide,
    sizes: Sizes,
) -> usize
    requires { WithinLimits sizes
        × (get_or attributes.now 0 0 ≤ 6)
        × (get_or attributes.now 1 0 ≤ 6)
        × Is (cuts_ok cuts.now sizes.roles)
        × Stands scratch.old starts.now }
    ensures { (length scratch.new ≡ length scratch.old)
        × (result + head_count scratch.new ≤ head_count scratch.old)
        × ((F : Policy)
        → Sized F
        → Paired F links.now matches.now knowing.now attributes.now
        sizes.users sizes.resources sizes.operations
        → Traced F (all_parts starts.now) scratch.old alone
        → Leading F cuts.now (all_parts starts.now) scratch.new result)
        × ((i : ℕ)
        → name_in (rest_at scratch.new i) ≡ name_in (rest_at scratch.old i)) }
{
    // Without a cut the one run is of all roles: the second stage merges it.
    if cuts.len() == 0 {
        return 0;
    }
    let runs = cuts.len() + 1;
    let mut first: usize = 0;
    let mut made: usize = 0;
    for run in 0..runs {
        let end = run_end(starts, cuts, run);
        let window = Window {
            first: first,
            end: end,
        };
        made += merge_within(scratch, window, links, matches, knowing, attributes, sizes);
        first = end;
    }
    made
}

// Merges the parts of a policy, by the tables of its record, within each run of roles that the cuts make and then over all, until no pair is
// left: how many merges were made. The table of starts tells where the parts of each role stand.
pub fn merge<'a>(
    scratch: &mut [u64],
    starts: &mut Starts,
    cuts: &[u8],
    links: &'a Links,
    matches: &'a ByPlaceMember,
    knowing: &'a ByPlace,
    attributes: &'a CountBySide,
    holders: &'a ByRole,
    permissions: &'a ByRoleOperation,
    sizes: Sizes,
) -> usize
    requires { WithinLimits sizes
        × (get_or attributes.now 0 0 ≤ 6)
        × (get_or attributes.now 1 0 ≤ 6)
        × (most_parts ≤ room_in scratch.old)
        × Is (cuts_ok cuts.now sizes.roles) }
    ensures { (length scratch.new ≡ length scratch.old)
        × Stands scratch.new starts.new
        × ((F : Policy)
        → Sized F
        → Tables F links.now matches.now knowing.now attributes.now
        holders.now permissions.now sizes.users sizes.resources sizes.operations
        sizes.roles
        → (result ≡ merge_count (setting_of F) (roles_in F) cuts.now)
        × Merged F cuts.now (all_parts starts.new) scratch.new) }
{
    let parts = mine_fill::fill(
        scratch,
        starts,
        links,
        matches,
        knowing,
        attributes,
        holders,
        permissions,
        sizes,
    );
    let within_runs = merge_runs(
        scratch, starts, cuts, links, matches, knowing, attributes, sizes,
    );
    let all = Window {
        first: 0,
        end: parts,
    };
    let over_all = merge_within(scratch, all, links, matches, knowing, attributes, sizes);
    mine_join::resolve(scratch, parts);
    within_runs + over_all
}
