// The layout of scratch memory: four words for each part, by the number of the part. They are the users, resources and operations of the group
// whose head the part is, and a last one with its atoms (36 bits), its level (2 bits), the part's own name (11 bits) and the number of its head.
// No other crate's code says where a word stands.
#![tactic(auto)]

ghost use Rattle.std.specs.Prelude.{◌≡◌, ◌+◌, ◌*◌, ◌^◌, ◌<◌};
ghost use Rattle.mine_corners.specs.Pairing.{words_in};
ghost use Rattle.role_record.specs.Cells.{most_operations};
ghost use Rattle.mine_parts.specs.Layout.{most_parts, room_in, users_at, resources_at, operations_at, rest_at, members_at, level_in, name_in, head_in, rest_of, name_of, role_at, lead_at, words_at, is_head_at, stored_part, low_in, head_taken};

use mine_corners::Group;
use role_record::RoleFile;

// The most parts that a role file can have: a role has no more than there are operations.
pub const MOST: usize = RoleFile::PARTS;

// The words of scratch memory for so many.
pub const WORDS: usize = PartWords::WORDS * MOST;

// A word for each part.
pub type ByPart = [u64; MOST];

// How many parts stand before each role, and behind the last role all of them.
pub type Starts = [usize; RoleFile::ROLES + 1];

// The words of a part as they stand in scratch.
#[derive(Clone, Copy)]
pub struct PartWords {
    pub users: u64,
    pub resources: u64,
    pub operations: u64,
    pub rest: u64,
}

impl PartWords {
    const WORDS: usize = 4;

    // The users stand first, and these behind them.
    const RESOURCES: usize = 1;

    const OPERATIONS: usize = 2;

    const REST: usize = 3;

    // Where the level, the name and the head begin in the last word, and how many levels and names there are.
    const LEVEL: u64 = 0x10_0000_0000;

    const NAME: u64 = 0x40_0000_0000;

    const HEAD: u64 = 0x2_0000_0000_0000;

    const LEVELS: u64 = 4;

    const NAMES: u64 = 2048;
}

// ---- reading

pub fn users_at(scratch: &[u64], i: usize) -> u64
    requires { i < room_in scratch.now }
    ensures { result ≡ users_at scratch.now i }
{
    scratch[PartWords::WORDS * i]
}

pub fn resources_at(scratch: &[u64], i: usize) -> u64
    requires { i < room_in scratch.now }
    ensures { result ≡ resources_at scratch.now i }
{
    scratch[PartWords::WORDS * i + PartWords::RESOURCES]
}

pub fn operations_at(scratch: &[u64], i: usize) -> u64
    requires { i < room_in scratch.now }
    ensures { result ≡ operations_at scratch.now i }
{
    scratch[PartWords::WORDS * i + PartWords::OPERATIONS]
}

// The users on side 0, the resources on side 1: without a test of the side.
pub fn members_at(scratch: &[u64], i: usize, side: usize) -> u64
    requires { (i < room_in scratch.now) × (side < 2) }
    ensures { result ≡ members_at scratch.now i side }
{
    scratch[PartWords::WORDS * i + side]
}

// The group whose head the part is.
pub fn group_at(scratch: &[u64], i: usize) -> Group
    requires { i < room_in scratch.now }
    ensures { words_in result ≡ words_at scratch.now i }
{
    Group {
        users: scratch[PartWords::WORDS * i],
        resources: scratch[PartWords::WORDS * i + PartWords::RESOURCES],
        operations: scratch[PartWords::WORDS * i + PartWords::OPERATIONS],
        atoms: scratch[PartWords::WORDS * i + PartWords::REST] % PartWords::LEVEL,
    }
}

// Its level.
pub fn level_at(scratch: &[u64], i: usize) -> usize
    requires { i < room_in scratch.now }
    ensures { result ≡ level_in (rest_at scratch.now i) }
{
    (scratch[PartWords::WORDS * i + PartWords::REST] / PartWords::LEVEL
        % PartWords::LEVELS) as usize
}

// The part's own name.
pub fn name_at(scratch: &[u64], i: usize) -> usize
    requires { i < room_in scratch.now }
    ensures { result ≡ name_in (rest_at scratch.now i) }
{
    (scratch[PartWords::WORDS * i + PartWords::REST] / PartWords::NAME % PartWords::NAMES) as usize
}

// The role that its name says.
pub fn role_at(scratch: &[u64], i: usize) -> usize
    requires { i < room_in scratch.now }
    ensures { result ≡ role_at scratch.now i }
{
    name_at(scratch, i) % RoleFile::ROLES
}

// The lowest operation that its name says.
pub fn lead_at(scratch: &[u64], i: usize) -> usize
    requires { i < room_in scratch.now }
    ensures { result ≡ lead_at scratch.now i }
{
    name_at(scratch, i) / RoleFile::ROLES % RoleFile::OPERATIONS
}

// The part that the last word names as head.
pub fn head_at(scratch: &[u64], i: usize) -> usize
    requires { i < room_in scratch.now }
    ensures { result ≡ head_in (rest_at scratch.now i) }
{
    (scratch[PartWords::WORDS * i + PartWords::REST] / PartWords::HEAD) as usize
}

// Whether the part is the head of a group.
pub fn is_head(scratch: &[u64], i: usize) -> bool
    requires { i < room_in scratch.now }
    ensures { result ≡ is_head_at scratch.now i }
{
    head_at(scratch, i) == i
}

// ---- writing

// The name of the part of a role and its lowest operation.
pub fn name_of(role: usize, lead: usize) -> usize
    requires { (role < 32) × (lead < most_operations) }
    ensures { result ≡ name_of role lead }
{
    role + RoleFile::ROLES * lead
}

// The last word of a part.
pub fn pack(atoms: u64, level: usize, name: usize, head: usize) -> u64
    requires { (atoms < 2 ^ 36) × (level < 4) × (name < 2 ^ 11) × (head < most_parts) }
    ensures { result ≡ rest_of atoms level name head }
{
    atoms
        + PartWords::LEVEL * level as u64
        + PartWords::NAME * name as u64
        + PartWords::HEAD * head as u64
}

// Writes the words of a part.
pub fn store(scratch: &mut [u64], i: usize, s: PartWords)
    requires { i < room_in scratch.old }
    ensures { scratch.new
        ≡ stored_part scratch.old i s.users s.resources s.operations s.rest }
{
    scratch[PartWords::WORDS * i] = s.users;
    scratch[PartWords::WORDS * i + PartWords::RESOURCES] = s.resources;
    scratch[PartWords::WORDS * i + PartWords::OPERATIONS] = s.operations;
    scratch[PartWords::WORDS * i + PartWords::REST] = s.rest;
}

// The last word of a part, with the head that another part's last word names.
fn headed_as(rest: u64, other: u64) -> u64
    ensures { result ≡ low_in rest + 2 ^ 49 * head_in other }
{
    rest % PartWords::HEAD + PartWords::HEAD * (other / PartWords::HEAD)
}

// Part k gets the head that part p names.
pub fn take_head(scratch: &mut [u64], k: usize, p: usize)
    requires { (k < room_in scratch.old) × (p < room_in scratch.old) }
    ensures { scratch.new ≡ head_taken scratch.old k p }
{
    scratch[PartWords::WORDS * k + PartWords::REST] = headed_as(
        scratch[PartWords::WORDS * k + PartWords::REST],
        scratch[PartWords::WORDS * p + PartWords::REST],
    );
}
