//! Data paths in the making: what stands in the slices so far, and what joins them to the control.
#![tactic(auto)]

mod entries;
mod making;

pub use entries::{entry, net_of};
pub use making::{Guard, Making};
