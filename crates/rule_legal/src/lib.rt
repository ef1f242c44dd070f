// Whether the operands of a rule file's line may stand there.
#![tactic(auto)]

ghost use Rattle.std.specs.Prelude.{◌≡◌, ◌&&◌, ◌^◌, ◌≤◌, ◌<◌, ltb};
ghost use Rattle.role_record.specs.Record.{WithinLimits, FewAttributes, sizes_of};
ghost use Rattle.rule_legal.specs.Operands.{own_legal, value_legal, link_legal, part_legal};

use files::rule_byte;
use role_record::RoleFile;
use rule_commands::ListedValue;

// Whether all elements of a set are below n.
fn all_below(m: u64, n: usize) -> bool
    requires { n < 64 }
    ensures { result ≡ ltb m (2 ^ n) }
{
    m >> n == 0
}

// A value of a 255: roles of the user's, a resource of the resource's.
fn own_legal(side: usize, set: bool, v: u64, roles: usize, resources: usize) -> bool
    requires { roles ≤ 32 }
    ensures { result ≡ own_legal side set v roles resources }
{
    if side == 0 {
        if set {
            return all_below(v, roles);
        }
        return false; // the user's 255 is a set, of roles
    }
    if set {
        return false;
    }
    v < resources as u64
}

// Commands 22 to 25: a declared attribute of the right kind, or a 255 where it may stand.
pub fn value_legal(v: ListedValue, f: &RoleFile) -> bool
    requires { (v.side < 2) × WithinLimits (sizes_of f.now) }
    ensures { result
        ≡ value_legal v.side v.set v.attribute v.value f.now.roles f.now.resources
        f.now.attributes f.now.kinds }
{
    if v.attribute == rule_byte::OWN {
        return own_legal(v.side, v.set, v.value, f.roles, f.resources);
    }
    v.attribute < f.attributes[v.side] && sets::has(f.kinds[v.side], v.attribute) == v.set
}

// Command 26: operations that are declared, and not none.
pub fn operations_legal(m: u64, operations: usize) -> bool
    requires { operations ≤ 16 }
    ensures { result ≡ (ltb 0 m && ltb m (2 ^ operations)) }
{
    if 0 < m {
        return all_below(m, operations);
    }
    false
}

// Command 27: declared attributes that one of the three forms joins.
pub fn link_legal(a: u64, b: u64, f: &RoleFile) -> bool
    requires { FewAttributes f.now.attributes }
    ensures { result ≡ link_legal a b f.now.attributes f.now.kinds f.now.domains }
{
    if f.attributes[0] as u64 <= a {
        return false;
    }
    if f.attributes[1] as u64 <= b {
        return false;
    }
    if !role_record::same_domain(&f.domains, a as usize, b as usize) {
        return false;
    }
    if sets::has(f.kinds[0], a as usize) {
        return true;
    }
    !sets::has(f.kinds[1], b as usize)
}

// Command 28: a role and exactly the class of one of its parts.
pub fn part_legal(role: u64, m: u64, f: &RoleFile) -> bool
    requires { (f.now.roles ≤ 32) × (f.now.operations ≤ 16) }
    ensures { result ≡ part_legal role m f.now.roles f.now.operations f.now.holders f.now.permissions }
{
    if f.roles as u64 <= role {
        return false;
    }
    let k = role as usize;
    if f.holders[k] == 0 {
        return false;
    }
    let o = sets::least(m);
    if f.operations <= o {
        return false;
    }
    if f.permissions[RoleFile::ROLES * o + k] == 0 {
        return false;
    }
    grant_parts::class_of(&f.permissions, k, f.operations, o) == m
}
