//! The steps in which a data path is made: what each adds to the slices, and to what joins them to the control.
#![tactic(auto)]

mod latches;
mod operators;
mod parts;
mod storing;
mod transfers;

pub use latches::{add_port, add_slave};
pub use operators::{add_bit, add_number, add_operator, add_test, read_cell};
pub use storing::add_next;
pub use transfers::add_driven;
