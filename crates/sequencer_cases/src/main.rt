//! Steps programs and the transfers that they become side by side, and tells whether the transfers are sound.
#![tactic(auto)]

mod cases;
mod dice;
mod inputs;
mod running;
mod stepper;

use cases::show_cases;
use std::{fs, io};

fn main(rt: HostRuntime) -> io::Result<()> {
    let programs = fs::read(&rt, "programs.txt")?;
    show_cases(&rt, &programs)
}
