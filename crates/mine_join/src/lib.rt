// A join of two groups in scratch memory, and the last pass over the heads. While groups are merged a part that is no head may name an
// earlier part of its group instead of the head, so that a join writes the words of no more than two parts.
#![tactic(auto)]

ghost use Rattle.std.specs.Prelude.{List, ◌⊎◌, ◌≡◌, ℕ, ◌≤◌, ◌<◌, max, min};
ghost use Rattle.mine_matches.specs.Matches.{SidesMet};
ghost use Rattle.mine_heads.specs.Heads.{Marked, Open};
ghost use Rattle.mine_join.specs.Joins.{TakenIn, Joined, Joinable, Prepared, Resolved};
ghost use Rattle.mine_corners.specs.Pairing.{words_in};
ghost use Rattle.mine_parts.specs.Layout.{room_in, words_at, is_head_at};
ghost use Rattle.sets.specs.Tests.{Is};

use mine_corners::Group;
use mine_heads::{Marks, Window};
use mine_parts::PartWords;
use mine_search::Found;
use role_record::{ByAttribute, ByPlaceMember};

// Head i takes in the group of head j: its words become those of both, with the level of both together.
fn take_in(scratch: &mut [u64], i: usize, j: usize, level: usize)
    requires { (i < room_in scratch.old) × (j < room_in scratch.old) × (level < 4) }
    ensures { TakenIn scratch.old scratch.new i j level }
{
    let g = mine_parts::group_at(scratch, i);
    let h = mine_parts::group_at(scratch, j);
    let name = mine_parts::name_at(scratch, i);
    let rest = mine_parts::pack(sets::meet(g.atoms, h.atoms), level, name, i);
    let both = PartWords {
        users: sets::union(g.users, h.users),
        resources: sets::union(g.resources, h.resources),
        operations: sets::union(g.operations, h.operations),
        rest: rest,
    };
    mine_parts::store(scratch, i, both);
}

// Joins the group of head j to that of head i. The other parts of j's group go on naming j: the last pass finds their head.
fn join(scratch: &mut [u64], i: usize, j: usize, level: usize)
    requires { (i < j) × (j < room_in scratch.old) × (level < 4) }
    ensures { Joined scratch.old scratch.new i j level }
{
    take_in(scratch, i, j, level);
    mine_parts::take_head(scratch, j, i);
}

// Marks the heads of a window that reach the group of head i after that of head j was joined to it, where those of one of the two are marked.
// Its words were g. With more users and resources, but no more operations, it is not reached by a group that did not reach it before: then
// only j goes.
fn mark_again(
    scratch: &[u64],
    window: Window,
    heads: &Marks,
    g: Group,
    i: usize,
    j: usize,
    ready: &mut Marks,
)
    requires { (i < j)
        × (j < window.end)
        × (window.end ≤ room_in scratch.now)
        × Marked window.first window.end heads.now scratch.now }
    ensures { (t : List ℕ) (c level : ℕ)
        → Joined t scratch.now i j level
        → Is (is_head_at t i)
        → (c ≡ i) ⊎ (c ≡ j)
        → words_in g ≡ words_at t c
        → Open window.first window.end ready.old t c
        → Open window.first window.end ready.new scratch.now i }
{
    if mine_parts::operations_at(scratch, i) == g.operations {
        mine_heads::unmark(ready, j);
        return;
    }
    mine_heads::mark_open(scratch, window, heads, i, ready);
}

// Makes the marks and the table those of part c's group, whatever the marks were, and where the table is that of nobody.
pub fn prepare(
    scratch: &[u64],
    window: Window,
    heads: &Marks,
    ready: &mut Marks,
    met: &mut ByAttribute,
    matches: &ByPlaceMember,
    c: usize,
)
    requires { (c < window.end)
        × (window.end ≤ room_in scratch.now)
        × Marked window.first window.end heads.now scratch.now
        × SidesMet matches.now 0 0 met.old }
    ensures { Prepared window.first window.end matches.now scratch.now heads.now
        ready.new met.new c }
{
    let users = mine_parts::users_at(scratch, c);
    let resources = mine_parts::resources_at(scratch, c);
    mine_widen::widen(matches, users, resources, met);
    mine_heads::mark_open(scratch, window, heads, c, ready);
}

// Joins the group of head c and that of the head found, and makes the marks and the table those of the group that comes of it: its
// head.
pub fn join_found(
    scratch: &mut [u64],
    window: Window,
    heads: &mut Marks,
    ready: &mut Marks,
    met: &mut ByAttribute,
    matches: &ByPlaceMember,
    c: usize,
    found: Found,
) -> usize
    requires { (c < window.end)
        × (found.head < window.end)
        × (window.end ≤ room_in scratch.old)
        × Joinable window.end scratch.old c found.head found.level
        × Prepared window.first window.end matches.now scratch.old heads.old ready.old met.old c }
    ensures { (result ≡ min c found.head)
        × Joined scratch.old scratch.new result (max c found.head) found.level
        × Prepared window.first window.end matches.now scratch.new heads.new
        ready.new met.new result }
{
    let users = mine_parts::users_at(scratch, found.head);
    let resources = mine_parts::resources_at(scratch, found.head);
    mine_widen::widen(matches, users, resources, met);
    let i = mine_search::lower(c, found.head);
    let j = mine_search::higher(c, found.head);
    let g = mine_parts::group_at(scratch, c);
    join(scratch, i, j, found.level);
    mine_heads::unmark(heads, j);
    mark_again(scratch, window, heads, g, i, j, ready);
    i
}

// Gives every part the head of the part that it names. A part names itself or an earlier one, whose head is right already.
pub fn resolve(scratch: &mut [u64], parts: usize)
    requires { parts ≤ room_in scratch.old }
    ensures { Resolved parts scratch.old scratch.new }
{
    for k in 0..parts {
        let named = mine_search::lower(mine_parts::head_at(scratch, k), k);
        mine_parts::take_head(scratch, k, named);
    }
}
