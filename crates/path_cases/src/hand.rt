//! The counter that is made by hand.

use crate::circuit::Circuit;
use crate::counter::flat_counter;
use crate::shown::show_trace;
use mp_base::{List, NoMemory};
use std::alloc::{AllocError, Global};
use std::io;

// The words of four clocks, the first of which resets.
fn clocks(alloc: Global) -> Result<List<List<u64>>, AllocError> {
    let mut clocks = List::new(alloc);
    for clock in 0..4 {
        let reset = if clock == 0 { 1 } else { 0 };
        clocks.push(List::from_vec(vec![in alloc; reset]?))?;
    }
    Ok(clocks)
}

// What the counter shows in these clocks from unknown values, if its transfers fit together.
fn counter_trace(alloc: Global) -> Result<Option<List<List<Option<u64>>>>, NoMemory> {
    let Some(flat) = flat_counter(alloc)? else {
        return Ok(None);
    };
    let clocks = clocks(alloc)?;
    let mut circuit = Circuit::unknown(alloc, flat)?;
    Ok(Some(circuit.trace(alloc, clocks.as_slice())?))
}

/// What the counter shows in four clocks from unknown values, the first of which resets.
pub(crate) fn show_counter(rt: &HostRuntime) -> io::Result<()> {
    match counter_trace(rt.alloc()) {
        Ok(Some(trace)) => show_trace(rt, trace.as_slice()),
        Ok(None) => println!(rt; "the transfers don't fit together"),
        Err(_) => println!(rt; "not enough memory"),
    }
}
