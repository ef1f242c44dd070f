// What rules cost: 000's four sums, which mining counts, and their cost by weights, which it does not look at.
#![tactic(auto)]

ghost use Rattle.std.specs.Prelude.{◌*◌, ◌<◌, ◌≡◌};
ghost use Rattle.write_cost.specs.CostSums.{AtMost, added, weighed};

use policy::Weights;

// What the cost of rules is made of: the values and elements in their users' conjuncts and in their resources', their operations, their atoms.
#[derive(Clone, Copy)]
pub struct Sums {
    pub users: u32,
    pub resources: u32,
    pub operations: u32,
    pub atoms: u32,
}

// Both together. A rule's sums are far below half of what 32 bits hold, and so are those of all rules.
pub fn add(a: Sums, b: Sums) -> Sums
    requires { AtMost 2147483647 a × AtMost 2147483647 b }
    ensures { result ≡ added a b }
{
    Sums {
        users: a.users + b.users,
        resources: a.resources + b.resources,
        operations: a.operations + b.operations,
        atoms: a.atoms + b.atoms,
    }
}

// A sum by its weight. It has 48 bits, since a weight has 16 and a sum 32.
fn product(weight: u16, sum: u32) -> u64
    ensures { (result ≡ weight * sum) × (result < 281474976710656) }
{
    weight as u64 * sum as u64
}

// The cost by these weights. It never wraps: four products of 48 bits are added up in 64.
pub fn weigh(weights: Weights, sums: Sums) -> u64
    ensures { result ≡ weighed weights sums }
{
    let users = product(weights.users, sums.users);
    let resources = product(weights.resources, sums.resources);
    let operations = product(weights.operations, sums.operations);
    let atoms = product(weights.atoms, sums.atoms);
    users + resources + operations + atoms
}
