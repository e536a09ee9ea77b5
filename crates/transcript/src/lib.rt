//! What is clocked, along a stimulus, and its transcript.
#![tactic(auto)]

mod device;
pub mod laws;
mod room;
mod running;

pub use device::Device;
pub use room::Room;
pub use running::run;
