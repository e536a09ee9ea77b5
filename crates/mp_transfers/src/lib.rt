//! Rules E28 to E32: labels, and `go`, `call` and `return`.
#![tactic(auto)]

mod labels;
mod marks;
mod tables;
mod transfers;
mod unknown;

pub use labels::repeated_label;
pub use transfers::{missing_stack, second_transfer, transfer_in_always};
pub use unknown::unknown_label;
