//! From a program to guarded transfers that show what the program shows: each definition, each place of a process and
//! each entry of a stack becomes a cell, each form what it transfers where it is active.
#![tactic(auto)]

mod idle;
mod sequencing;

pub use sequencing::sequence;
