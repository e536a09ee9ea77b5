//! What runs tell of sizes, counted again from the masks, for programs of cases.
#![tactic(auto)]

mod counted;
mod sized;

pub use counted::{counts_around, is_size_at_end};
pub use sized::is_size_of_chip;
