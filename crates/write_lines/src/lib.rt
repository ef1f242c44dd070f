// Writes the lines of a rule file. Each function writes at the front of the slice that it is lent and leaves what stands behind its
// bytes as it was.
#![tactic(auto)]

ghost use Rattle.std.specs.Prelude.{length, get_or, ◌∷◌, [], ◌≡◌, ◌≤◌, ◌<◌};
ghost use Rattle.files.specs.Bytes.{spread};
ghost use Rattle.files.specs.RuleFile.{value_byte};
ghost use Rattle.write_lines.specs.Writing.{wrote};
ghost use Rattle.mine_theory.specs.Lines.RuleLines.{value_bytes, part_bytes};
ghost use Rattle.sets.specs.Tests.{each, up_to};
ghost use Rattle.role_record.specs.Places.{place_side, place_attribute};

use files::rule_byte;
use role_record::{ByMember, RoleFile};

pub fn put_one(out: &mut [u8], command: usize)
    requires { (1 ≤ length out.old) × (command < 256) }
    ensures { out.new ≡ wrote (command ∷ []) out.old }
{
    out[0] = command as u8;
}

pub fn put_two(out: &mut [u8], command: usize, x: usize)
    requires { (2 ≤ length out.old) × (command < 256) × (x < 256) }
    ensures { out.new ≡ wrote (command ∷ x ∷ []) out.old }
{
    out[0] = command as u8;
    out[1] = x as u8;
}

pub fn put_three(out: &mut [u8], command: usize, x: usize, y: usize)
    requires { (3 ≤ length out.old) × (command < 256) × (x < 256) × (y < 256) }
    ensures { out.new ≡ wrote (command ∷ x ∷ y ∷ []) out.old }
{
    out[0] = command as u8;
    out[1] = x as u8;
    out[2] = y as u8;
}

fn put_four(out: &mut [u8], command: usize, x: usize, v: u64)
    requires { (4 ≤ length out.old) × (command < 256) × (x < 256) }
    ensures { out.new ≡ wrote (command ∷ x ∷ spread 2 v) out.old }
{
    out[0] = command as u8;
    out[1] = x as u8;
    out[2] = (v % 256) as u8;
    out[3] = (v / 256 % 256) as u8;
}

fn put_ten(out: &mut [u8], command: usize, x: usize, v: u64)
    requires { (10 ≤ length out.old) × (command < 256) × (x < 256) }
    ensures { out.new ≡ wrote (command ∷ x ∷ spread 8 v) out.old }
{
    out[0] = command as u8;
    out[1] = x as u8;
    out[2] = (v % 256) as u8;
    out[3] = (v / 256 % 256) as u8;
    out[4] = (v / 256 / 256 % 256) as u8;
    out[5] = (v / 256 / 256 / 256 % 256) as u8;
    out[6] = (v / 256 / 256 / 256 / 256 % 256) as u8;
    out[7] = (v / 256 / 256 / 256 / 256 / 256 % 256) as u8;
    out[8] = (v / 256 / 256 / 256 / 256 / 256 / 256 % 256) as u8;
    out[9] = (v / 256 / 256 / 256 / 256 / 256 / 256 / 256 % 256) as u8;
}

// The command byte of a conjunct's lines, by its place and kind.
fn command_at(place: usize, set: bool) -> usize
    ensures { result ≡ value_byte (place_side place) set }
{
    if place < RoleFile::CONJUNCTS {
        if set {
            return rule_byte::USER_SET;
        }
        return rule_byte::USER_SINGLE;
    }
    if set {
        return rule_byte::RESOURCE_SET;
    }
    rule_byte::RESOURCE_SINGLE
}

// The attribute of a place.
fn attribute_at(place: usize) -> usize
    ensures { result ≡ place_attribute place }
{
    if place % RoleFile::CONJUNCTS == RoleFile::ATTRIBUTES {
        return rule_byte::OWN;
    }
    place % RoleFile::CONJUNCTS
}

// A line 22 to 25.
fn put_value(out: &mut [u8], place: usize, set: bool, v: u64) -> usize
    requires { length (value_bytes (place_side place) set (place_attribute place) v) ≤ length out.old }
    ensures { (result ≡ length (value_bytes (place_side place) set (place_attribute place) v))
        × (out.new ≡ wrote (value_bytes (place_side place) set (place_attribute place) v) out.old) }
{
    let command = command_at(place, set);
    let attribute = attribute_at(place);
    if set {
        put_ten(out, command, attribute, v);
        return 10;
    }
    put_four(out, command, attribute, v);
    4
}

// ---- conjuncts

// A line for each of the values that stand at the front of a list.
pub fn put_values(list: &ByMember, count: usize, place: usize, set: bool, out: &mut [u8]) -> usize
    requires { (count ≤ 64)
        × (length
        (each (λ k. value_bytes (place_side place) set (place_attribute place) (get_or list.now k 0)) (up_to count))
        ≤ length out.old) }
    ensures { (result
        ≡ length
        (each (λ k. value_bytes (place_side place) set (place_attribute place) (get_or list.now k 0))
        (up_to count)))
        × (out.new
        ≡ wrote
        (each (λ k. value_bytes (place_side place) set (place_attribute place) (get_or list.now k 0))
        (up_to count))
        out.old) }
{
    let mut at: usize = 0;
    for k in 0..count {
        at += put_value(&mut out[at..], place, set, list[k]);
    }
    at
}

// A line 28 for each of the operation sets that stand at the front of a list.
pub fn put_classes(list: &ByMember, count: usize, role: usize, out: &mut [u8]) -> usize
    requires { (count ≤ 64)
        × (role < 32)
        × (length (each (λ k. part_bytes role (get_or list.now k 0)) (up_to count)) ≤ length out.old) }
    ensures { (result ≡ length (each (λ k. part_bytes role (get_or list.now k 0)) (up_to count)))
        × (out.new
        ≡ wrote (each (λ k. part_bytes role (get_or list.now k 0)) (up_to count)) out.old) }
{
    let mut at: usize = 0;
    for k in 0..count {
        put_four(&mut out[at..], rule_byte::PART, role, list[k]);
        at += 4;
    }
    at
}
