// The search in scratch memory for the first group that may be joined with a given one.
#![tactic(auto)]

ghost use Rattle.std.specs.Prelude.{get_or, ◌&&◌, ◌≡◌, ℕ, ◌+◌, ◌*◌, ◌%◌, ◌≤◌, ◌<◌, max, min};
ghost use Rattle.mine_matches.specs.Matches.{both_members, SidesMet};
ghost use Rattle.mine_heads.specs.Heads.{mark_words, MarkedBelow, Open};
ghost use Rattle.mine_search.specs.PartnerSearch.{joined_level, partner_level, FirstIn, Finds, near_at, near_head, GroupMet};
ghost use Rattle.mine_corners.specs.Pairing.{words_in};
ghost use Rattle.mine_parts.specs.Layout.{room_in, users_at, resources_at, is_head_at};
ghost use Rattle.sets.specs.Sets.{bit};
ghost use Rattle.sets.specs.Tests.{Is};
ghost use Rattle.role_record.specs.Record.{WithinLimits};

use mine_corners::Group;
use mine_heads::{Marks, Window};
use role_record::{ByAttribute, ByPlace, ByPlaceMember, CountBySide, Links, Sizes};

// A head to be joined with another, and the level of both together; the end of the window if there is none.
#[derive(Clone, Copy)]
pub struct Found {
    pub head: usize,
    pub level: usize,
}

// A head that a partner is sought for, and the first part that is looked at.
#[derive(Clone, Copy)]
pub struct Seeking {
    pub head: usize,
    pub from: usize,
}

pub fn lower(a: usize, b: usize) -> usize
    ensures { result ≡ min a b }
{
    if a < b { a } else { b }
}

pub fn higher(a: usize, b: usize) -> usize
    ensures { result ≡ max a b }
{
    if a < b { b } else { a }
}

// The level of two heads' groups together, if they may be joined; else 4. The table of who meets the values of both groups' members is
// handed in.
fn level_if_joined<'a>(
    scratch: &[u64],
    links: &'a Links,
    matches: &'a ByPlaceMember,
    met: &'a ByAttribute,
    knowing: &'a ByPlace,
    attributes: &'a CountBySide,
    sizes: Sizes,
    i: usize,
    j: usize,
) -> usize
    requires { WithinLimits sizes
        × (get_or attributes.now 0 0 ≤ 6)
        × (get_or attributes.now 1 0 ≤ 6)
        × (i < room_in scratch.now)
        × (j < room_in scratch.now)
        × SidesMet matches.now (both_members (users_at scratch.now i) (users_at scratch.now j))
        (both_members (resources_at scratch.now i) (resources_at scratch.now j)) met.now }
    ensures { result
        ≡ joined_level links.now matches.now knowing.now attributes.now
        sizes.users sizes.resources sizes.operations scratch.now i j }
{
    let limit = higher(
        mine_parts::level_at(scratch, i),
        mine_parts::level_at(scratch, j),
    );
    let g = mine_parts::group_at(scratch, i);
    let h = mine_parts::group_at(scratch, j);
    mine_pairs::level_of_pair(links, matches, met, knowing, attributes, sizes, g, h, limit)
}

// The level of c's group together with k's, the earlier head first, if they may be joined; else 4.
// The table of c's group is handed in: it is put to many others, and most of these have few members.
fn level_beside<'a>(
    scratch: &[u64],
    links: &'a Links,
    matches: &'a ByPlaceMember,
    met: &'a ByAttribute,
    knowing: &'a ByPlace,
    attributes: &'a CountBySide,
    sizes: Sizes,
    c: usize,
    k: usize,
) -> usize
    requires { WithinLimits sizes
        × (get_or attributes.now 0 0 ≤ 6)
        × (get_or attributes.now 1 0 ≤ 6)
        × (c < room_in scratch.now)
        × (k < room_in scratch.now)
        × GroupMet matches.now scratch.now c met.now }
    ensures { result
        ≡ partner_level links.now matches.now knowing.now attributes.now
        sizes.users sizes.resources sizes.operations scratch.now c k }
{
    if k == c {
        return mine_pairs::NO_LEVEL;
    }
    let mut met_by_both = *met;
    mine_widen::widen(
        matches,
        mine_parts::users_at(scratch, k),
        mine_parts::resources_at(scratch, k),
        &mut met_by_both,
    );
    let i = lower(c, k);
    let j = higher(c, k);
    level_if_joined(
        scratch,
        links,
        matches,
        &met_by_both,
        knowing,
        attributes,
        sizes,
        i,
        j,
    )
}

// The first of these parts of a word of marks whose group is near: `end` if there is none.
fn near_within(scratch: &[u64], end: usize, marked: u64, word: usize, g: Group) -> usize
    requires { (word < mark_words) × ((k : ℕ) → k < 64 → Is (bit marked k) → 64 * word + k < room_in scratch.now) }
    ensures { FirstIn end (λ k. bit marked (k % 64) && near_at scratch.now (words_in g) k) (64 * word)
        (64 * word + 64) result }
{
    for i in sets::members(marked) {
        let k = 64 * word + i;
        if mine_corners::near(g, mine_parts::group_at(scratch, k)) {
            return k;
        }
    }
    end
}

// The first marked part from a part on whose group is near: `end`, before which all marks are, if there is none.
fn next_near(scratch: &[u64], end: usize, heads: &Marks, g: Group, from: usize) -> usize
    requires { (end ≤ room_in scratch.now) × MarkedBelow end heads.now }
    ensures { FirstIn end (near_head heads.now scratch.now (words_in g)) from end result }
{
    let words = (end + 63) / 64;
    for word in from / 64..words {
        let passed = sets::below(higher(from, 64 * word) - 64 * word);
        let k = near_within(scratch, end, sets::without(heads[word], passed), word, g);
        if k < end {
            return k;
        }
    }
    end
}

// The first part of a window, from a part on, that may be joined with the head that seeks one. Only ready heads are looked at, and of these only
// the near ones.
pub fn first_partner<'a>(
    scratch: &[u64],
    window: Window,
    ready: &Marks,
    links: &'a Links,
    matches: &'a ByPlaceMember,
    met: &'a ByAttribute,
    knowing: &'a ByPlace,
    attributes: &'a CountBySide,
    sizes: Sizes,
    seeking: Seeking,
) -> Found
    requires { WithinLimits sizes
        × (get_or attributes.now 0 0 ≤ 6)
        × (get_or attributes.now 1 0 ≤ 6)
        × (seeking.head < window.end)
        × (window.first ≤ seeking.from)
        × (seeking.from ≤ window.end)
        × (window.end ≤ room_in scratch.now)
        × Open window.first window.end ready.now scratch.now seeking.head
        × GroupMet matches.now scratch.now seeking.head met.now
        × Is (is_head_at scratch.now seeking.head) }
    ensures { Finds window.end links.now matches.now knowing.now attributes.now
        sizes.users sizes.resources sizes.operations scratch.now seeking.head seeking.from
        result.head result.level }
{
    let end = window.end;
    let g = mine_parts::group_at(scratch, seeking.head);
    let mut k = next_near(scratch, end, ready, g, seeking.from);
    while k < end {
        let level = level_beside(
            scratch,
            links,
            matches,
            met,
            knowing,
            attributes,
            sizes,
            seeking.head,
            k,
        );
        if level < mine_pairs::NO_LEVEL {
            return Found {
                head: k,
                level: level,
            };
        }
        k = next_near(scratch, end, ready, g, k + 1);
    }
    Found {
        head: end,
        level: mine_pairs::NO_LEVEL,
    }
}
