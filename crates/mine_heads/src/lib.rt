// The marks of the heads in scratch memory, and which heads are open: those that could be joined with a group. A bit for each part, bit
// k % 64 of word k / 64.
#![tactic(auto)]

ghost use Rattle.std.specs.Prelude.{ltb, ◌&&◌, ◌≡◌, ℕ, ◌+◌, ◌*◌, ◌-◌, ◌≤◌, ◌<◌, min};
ghost use Rattle.mine_heads.specs.Heads.{mark_words, is_marked, Marked, Open, unmarked};
ghost use Rattle.mine_corners.specs.Pairing.{words_in, reaches};
ghost use Rattle.mine_parts.specs.Layout.{most_parts, room_in, words_at, is_head_at};
ghost use Rattle.sets.specs.Sets.{bit, mask_of};
ghost use Rattle.sets.specs.Tests.{Is};

use mine_corners::Group;

// A mark for each part: 64 in a word.
pub type Marks = [u64; WORDS];

pub const WORDS: usize = mine_parts::MOST / 64;

// The parts from one number on and before another: those among which groups are merged.
#[derive(Clone, Copy)]
pub struct Window {
    pub first: usize,
    pub end: usize,
}

// How many of the parts before one have their mark in a word.
fn marks_in(before: usize, word: usize) -> usize
    requires { word < mark_words }
    ensures { result ≡ min 64 (before - 64 * word) }
{
    if before <= 64 * word {
        return 0;
    }
    if 64 <= before - 64 * word {
        return 64;
    }
    before - 64 * word
}

// The heads among the parts before one whose marks are in a word.
fn heads_in(scratch: &[u64], before: usize, word: usize) -> u64
    requires { (word < mark_words) × (before ≤ room_in scratch.now) }
    ensures { result ≡ mask_of 64 (λ k. ltb (64 * word + k) before && is_head_at scratch.now (64 * word + k)) }
{
    let end = marks_in(before, word);
    let mut m: u64 = 0;
    for k in 0..end {
        if mine_parts::is_head(scratch, 64 * word + k) {
            m = sets::with(m, k);
        }
    }
    m
}

// Marks every head of a window, whatever the table held: bit k % 64 of word k / 64.
pub fn mark(scratch: &[u64], window: Window, heads: &mut Marks)
    requires { window.end ≤ room_in scratch.now }
    ensures { Marked window.first window.end heads.new scratch.now }
{
    for word in 0..WORDS {
        let passed = sets::below(marks_in(window.first, word));
        heads[word] = sets::without(heads_in(scratch, window.end, word), passed);
    }
}

// Whether part k is marked.
pub fn is_marked(heads: &Marks, k: usize) -> bool
    requires { k < most_parts }
    ensures { result ≡ is_marked heads.now k }
{
    sets::has(heads[k / 64], k % 64)
}

// Part j is no head any more.
pub fn unmark(heads: &mut Marks, j: usize)
    requires { j < most_parts }
    ensures { heads.new ≡ unmarked heads.old j }
{
    heads[j / 64] = sets::without(heads[j / 64], sets::with(0, j % 64));
}

// Of these parts of a word of marks those whose group reaches a group.
fn reaching(scratch: &[u64], marked: u64, word: usize, g: Group) -> u64
    requires { (word < mark_words) × ((k : ℕ) → k < 64 → Is (bit marked k) → 64 * word + k < room_in scratch.now) }
    ensures { result ≡ mask_of 64 (λ k. bit marked k && reaches (words_at scratch.now (64 * word + k)) (words_in g)) }
{
    let mut m: u64 = 0;
    let mut rest = marked;
    while 0 < rest {
        let k = sets::least(rest);
        if mine_corners::reaches(mine_parts::group_at(scratch, 64 * word + k), g) {
            m = sets::with(m, k);
        }
        rest = sets::without_least(rest);
    }
    m
}

// Marks the heads of a window that reach part c's group, whatever the table held: no other of them can be joined with it.
pub fn mark_open(scratch: &[u64], window: Window, heads: &Marks, c: usize, ready: &mut Marks)
    requires { (c < window.end)
        × (window.end ≤ room_in scratch.now)
        × Marked window.first window.end heads.now scratch.now }
    ensures { Open window.first window.end ready.new scratch.now c }
{
    let g = mine_parts::group_at(scratch, c);
    for word in 0..WORDS {
        ready[word] = reaching(scratch, heads[word], word, g);
    }
}
