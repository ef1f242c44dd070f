// The meaning of roles and rules, and its theory: definitions and theorems (specs/); and the weights of a cost, since a call is handed them as
// the definitions have them.
#![tactic(auto)]

// The four weights of 000, w1 to w4: what a value or an element costs in the users' conjuncts of a rule and in the resources', what an operation
// costs, and what an atom does. Sixteen bits are "each 0 to 65,535", so that there is nothing to refuse. C hands them over as they stand here.
#[repr(C)]
#[derive(Clone, Copy)]
pub struct Weights {
    pub users: u16,
    pub resources: u16,
    pub operations: u16,
    pub atoms: u16,
}
