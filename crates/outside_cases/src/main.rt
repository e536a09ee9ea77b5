//! What public calls answer: operators, names of pads, files and outputs in memory, each call of which fails in turn; and
//! files and outputs of which no call is told to fail: the system's, writers that are soon full, and doubles that keep
//! what is told to them as long as there is room.
#![tactic(auto)]

mod files;
mod memory;
mod operators;
mod output;
mod pads;
mod quiet;

use std::io;

fn main(rt: HostRuntime) -> io::Result<()> {
    operators::show(&rt)?;
    memory::show(&rt)?;
    pads::show(&rt)?;
    quiet::show(&rt)?;
    files::show(&rt)?;
    output::show(&rt)
}
