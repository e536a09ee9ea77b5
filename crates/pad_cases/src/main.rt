//! Routes and frames of pads, each drawn alone: their rectangles by the first and the last square of lambda, and the
//! places of labels in half-units.
#![tactic(auto)]

mod frames;
mod routes;
mod shown;

use frames::show_frames;
use routes::show_routes;
use std::io;

fn main(rt: HostRuntime) -> io::Result<()> {
    show_routes(&rt)?;
    show_frames(&rt)
}
