//! Pads for ports that are named in any order: they stand in the order of the ports' heights, and their spots are told
//! in the order of the ports.
#![tactic(auto)]

mod order;
mod ports;

pub use ports::{Port, frame_ports};
