// Role files and rule files as bytes, and what every call answers: definitions and theorems (specs/), and 01's numbers of refusals and
// commands by name, for the code. A number that 01 does not give would not be proved: contracts speak of the definitions.
#![tactic(auto)]

mod refusal;
pub mod role_byte;
pub mod rule_byte;

pub use refusal::Refusal;
