//! Rows: words that are run while calls fail.

use crate::outcome_of::{Outcome, outcome_of};
use mp_base::NoMemory;
use outcome::Status;
use run_script::Side;
use std::io;

// Tells an outcome, unless the last one was told alike.
fn show(rt: &HostRuntime, outcome: &Outcome, last: &mut String) -> io::Result<()> {
    let mut line = String::new(rt.alloc());
    write!(
        line,
        "    {:?} {} lines,{}; dropped {} of {}",
        outcome.status, outcome.lines, outcome.told, outcome.dropped, outcome.in_all
    )?;
    if line.as_str() != last.as_str() {
        println!(rt; "{line}")?;
        *last = line;
    }
    Ok(())
}

// A call fails: whether the run ended otherwise than by it.
fn show_call(
    rt: &HostRuntime,
    source: &[u8],
    words: &str,
    side: Side,
    call: u64,
    last: &mut String,
) -> io::Result<bool> {
    match outcome_of(rt.alloc(), source, words, side.failing(call)) {
        Ok(outcome) => {
            show(rt, &outcome, last)?;
            Ok(outcome.status == Status::Done || outcome.status == Status::Refused)
        }
        Err(NoMemory) => {
            println!(rt; "    not enough memory")?;
            Ok(true)
        }
    }
}

/// Tells the words, and how they end where the source can't be read, where the masks can't be stored whole, and then
/// where each call of the output fails in turn. Runs in a row that end alike are told once.
pub(crate) fn show_row(rt: &HostRuntime, source: &[u8], words: &str) -> io::Result<()> {
    println!(rt; "{words}")?;
    let mut last = String::new(rt.alloc());
    show_call(rt, source, words, Side::Files, 0, &mut last)?;
    show_call(rt, source, words, Side::Files, 20, &mut last)?;
    for call in 0..1000 {
        if show_call(rt, source, words, Side::Output, call, &mut last)? {
            return Ok(());
        }
    }
    Ok(())
}
