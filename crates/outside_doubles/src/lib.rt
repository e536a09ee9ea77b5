//! Doubles of files and outputs in memory: some fail when they are told to, some never.
#![tactic(auto)]

mod memory;
mod quiet_depot;
mod quiet_log;
mod quiet_sink;

pub use memory::{MemDepot, MemSink};
pub use quiet_depot::{CALL_COST, QuietDepot};
pub use quiet_sink::QuietSink;
