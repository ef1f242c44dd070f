// What a mined rule lists, its bytes and the sums of its cost, read off tables and scratch memory: definitions and theorems (specs/), and a rule in outline.
#![tactic(auto)]

// A mined rule in outline, as it is handed on by value: the number of its group's head, the places that it keeps of the 50, and the roles that have a
// part in the group.
#[derive(Clone, Copy)]
pub struct Outline {
    pub head: usize,
    pub kept: u64,
    pub roles: u64,
}
