// The test of a user, or of a resource, against the conjuncts of a rule, in the order of 000: all single attributes first, set
// attributes after.
#![tactic(auto)]

ghost use Rattle.std.specs.Prelude.{true, false, ◌≡◌, ◌≤◌, ◌<◌};
ghost use Rattle.files.specs.RoleFile.{side_by};
ghost use Rattle.files.specs.RuleFile.{Lines, values_in};
ghost use Rattle.policy.specs.Policy.{Policy, setting_of};
ghost use Rattle.policy.specs.Satisfying.{satisfies_singles, satisfies_sets};
ghost use Rattle.rule_conjuncts.specs.Summary.{met_by_all};
ghost use Rattle.rule_satisfaction.specs.Satisfaction.{set_places, asked_as, SummedUp};
ghost use Rattle.sets.specs.Sets.{mask_of};

use role_record::{ByPlace, BySide, RoleFile};

// The places of sets: of the 255s the users' is one, the resources' is not.
fn set_places(kinds: &BySide) -> u64
    ensures { result ≡ set_places kinds.now }
{
    let declared = sets::below(RoleFile::ATTRIBUTES);
    let users = sets::with(sets::meet(kinds[0], declared), RoleFile::ATTRIBUTES);
    let resources = sets::meet(kinds[1], declared);
    sets::union(users, resources << RoleFile::CONJUNCTS)
}

// 000's first half, "∀a ∈ Au,1. e(a) = ⊤ ∨ ∃v ∈ e(a). du(u, a) = v": who of a side satisfies what a rule asks of single attributes.
fn singles_satisfied<'a>(
    met: &'a ByPlace,
    asked: u64,
    kinds: &'a BySide,
    side: usize,
    count: usize,
) -> u64
    requires { (side < 2) × (count ≤ 64) }
    ensures { (result ≡ met_by_all met.now (asked_as false kinds.now asked) side count)
        × ((F : Policy)
        → (ls : Lines)
        → SummedUp F ls met.now asked kinds.now side count
        → result ≡ mask_of count (satisfies_singles F (side_by side) (values_in (setting_of F) ls (side_by side)))) }
{
    let places = set_places(kinds);
    rule_conjuncts::met_by_all(met, sets::without(asked, places), side, count)
}

// Its second half, "∀a ∈ Au,m. e(a) = ⊤ ∨ ∃v ∈ e(a). du(u, a) ⊇ v": who satisfies what it asks of set attributes.
fn sets_satisfied<'a>(
    met: &'a ByPlace,
    asked: u64,
    kinds: &'a BySide,
    side: usize,
    count: usize,
) -> u64
    requires { (side < 2) × (count ≤ 64) }
    ensures { (result ≡ met_by_all met.now (asked_as true kinds.now asked) side count)
        × ((F : Policy)
        → (ls : Lines)
        → SummedUp F ls met.now asked kinds.now side count
        → result ≡ mask_of count (satisfies_sets F (side_by side) (values_in (setting_of F) ls (side_by side)))) }
{
    let places = set_places(kinds);
    rule_conjuncts::met_by_all(met, sets::meet(asked, places), side, count)
}

// Who of a side satisfies a rule, as it was summed up while it was read: it meets every conjunct of the side. The kinds tell the
// single attributes from the sets.
pub fn satisfying<'a>(
    met: &'a ByPlace,
    asked: u64,
    kinds: &'a BySide,
    side: usize,
    count: usize,
) -> u64
    requires { (side < 2) × (count ≤ 64) }
    ensures { result ≡ met_by_all met.now asked side count }
{
    let in_singles = singles_satisfied(met, asked, kinds, side, count);
    let in_sets = sets_satisfied(met, asked, kinds, side, count);
    sets::meet(in_singles, in_sets)
}
