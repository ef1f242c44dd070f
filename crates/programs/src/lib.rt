// What the programs share: their arguments, reading a file by its name, writing one, reading a number, and printing answers with their
// numbers and their meaning.
#![tactic(auto)]

mod argument;
mod input;
mod name;
mod number;
mod output;
mod print;

pub use argument::{argument_count, complain_of, read_argument};
pub use input::{Both, read_both, read_named, read_open, read_rules, roles_buffer, rules_buffer};
pub use number::number_named;
pub use output::save;
pub use print::{
    complain, complain_refused, end_line, fail, refuse, say, say_count, say_number, say_refusal,
    say_triple,
};
