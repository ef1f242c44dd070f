// The test of a rule's conjuncts: who meets all those of a side. It takes the rule as it was summed up while it was read: for each
// attribute, with the 255 as the seventh of its side, who meets one of the values listed; which attributes have values listed.
#![tactic(auto)]

ghost use Rattle.std.specs.Prelude.{◌≡◌, ◌≤◌, ◌<◌};
ghost use Rattle.rule_conjuncts.specs.Summary.{met_by_all};

use role_record::{ByPlace, RoleFile};

// Who of a side meets every conjunct.
pub fn met_by_all(met: &ByPlace, asked: u64, side: usize, count: usize) -> u64
    requires { (side < 2) × (count ≤ 64) }
    ensures { result ≡ met_by_all met.now asked side count }
{
    let mut m = sets::below(count);
    for i in 0..RoleFile::CONJUNCTS {
        if sets::has(asked, RoleFile::CONJUNCTS * side + i) {
            m = sets::meet(m, met[RoleFile::CONJUNCTS * side + i]);
        }
    }
    m
}
