//! The circuit, clock by clock.
#![tactic(auto)]

mod circuit;
mod device;
mod drive;
mod labels;
mod numbers;
mod owners;
mod plan;
mod resolve;
mod setting;
mod split;
mod word;

pub use circuit::Circuit;
