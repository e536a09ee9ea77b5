//! What circuits show.

use mp_base::List;
use std::io;

// What the output pads show in a clock.
fn show_clock(rt: &HostRuntime, clock: u32, shown: &[Option<u64>]) -> io::Result<()> {
    print!(rt; "{clock}")?;
    for number in shown {
        match number {
            Some(number) => print!(rt; " {number}")?,
            None => print!(rt; " X")?,
        }
    }
    println!(rt; "")
}

/// What the output pads show, clock by clock.
pub(crate) fn show_trace(rt: &HostRuntime, trace: &[List<Option<u64>>]) -> io::Result<()> {
    let mut clock = 0u32;
    for shown in trace {
        show_clock(rt, clock, shown.as_slice())?;
        clock = clock.wrapping_add(1);
    }
    Ok(())
}
