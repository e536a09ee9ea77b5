//! What a program may have at most, and must have: rules E23 to E26 of numbers and pins, E34 to E36 of resets, supplies
//! and empty processes, and E40 to E43 and E45 of how many names, processes, forms and expressions there are.
#![tactic(auto)]

mod crowds;
mod limits;
mod numbers;
mod pins;
mod presence;

pub use crowds::crowded_name;
pub use limits::{deep_process, far_process, long_process, many_exprs};
pub use numbers::{bit_past_word, wide_number};
pub use pins::{repeated_pin, uneven_pins};
pub use presence::{empty_process, missing_supply, without_reset};
