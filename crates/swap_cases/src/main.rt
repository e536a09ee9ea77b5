//! Boards whose parts are exchanged, with parts of its own that own a list and count when they are let go.
#![tactic(auto)]

mod outcome_of;
mod parts;
mod rows;
mod tally;

use std::{fs, io};

fn main(rt: HostRuntime) -> io::Result<()> {
    let source = fs::read(&rt, "next.mp")?;
    let rows = fs::read_to_string(&rt, "rows.txt")?;
    for row in rows.lines() {
        rows::show_row(&rt, &source, row)?;
    }
    Ok(())
}
