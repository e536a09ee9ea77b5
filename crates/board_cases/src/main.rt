//! Programs on boards with a part that counts its moves.
#![tactic(auto)]

mod boards;
mod joined;
mod row;
mod watch;

use std::{fs, io};

fn show_row(rt: &HostRuntime, line: &str) -> io::Result<()> {
    println!(rt; "{line}")?;
    boards::show_board(rt, row::row_of(line))
}

fn main(rt: HostRuntime) -> io::Result<()> {
    let table = fs::read_to_string(&rt, "boards.txt")?;
    for line in table.lines() {
        show_row(&rt, line)?;
    }
    Ok(())
}
