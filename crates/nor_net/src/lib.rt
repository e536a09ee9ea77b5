//! Nets of NOR gates and latches, and what it means that one is settled.
#![tactic(auto)]

mod inputs;
pub mod laws;
mod net;
mod setting;

pub use inputs::Inputs;
pub use net::{Net, NetId, NetKind, Part, Phase};
pub use setting::settle_net;
