//! What the steps to a data path give apart: intervals that are packed, slices of operators, and a counter made by hand
//! as a flat net, clock by clock from unknown values.
#![tactic(auto)]

mod circuit;
mod counter;
mod hand;
mod nets;
mod operator;
mod packing;
mod shown;
mod slices;
mod steps;

use hand::show_counter;
use organelles::Organelle;
use packing::show_packings;
use slices::show_slices;
use std::io;

fn main(rt: HostRuntime) -> io::Result<()> {
    show_packings(&rt, "intervals.txt")?;
    show_slices(&rt, Organelle::Add, 3, 7, 1)?;
    show_slices(&rt, Organelle::Less, 3, 3, 5)?;
    show_counter(&rt)
}
