//! A run, and what is left of it.

use crate::parts::{push, told_by};
use crate::tally::Tally;
use mp_base::NoMemory;
use outcome::Status;
use outside_doubles::{MemDepot, MemSink};
use run_script::{Failing, File, set, words_of};
use silicon::{NamedPart, run};
use std::alloc::{AllocError, Global};
use std::cell::Cell;
use std::rc::Rc;

/// How a run ended, how many lines it printed whole, what the parts drive that it left in the list, how many it had let
/// go by then, and how many are let go in all.
#[derive(Drop)]
pub(crate) struct Outcome {
    pub status: Status,
    pub lines: usize,
    pub told: String,
    pub dropped: u64,
    pub in_all: u64,
}

fn lines_in(text: &[u8]) -> usize {
    text.iter().filter(|byte| **byte == b'\n').count()
}

// Tells of a run, and lets its parts go.
fn outcome_after(
    alloc: Global,
    status: Status,
    out: &MemSink,
    parts: Vec<NamedPart>,
    drops: &Cell<u64>,
) -> Result<Outcome, AllocError> {
    let told = told_by(alloc, &parts)?;
    let dropped = drops.get();
    drop(parts);
    Ok(Outcome {
        status,
        lines: lines_in(out.bytes()),
        told,
        dropped,
        in_all: drops.get(),
    })
}

fn count_of(alloc: Global) -> Result<Rc<Cell<u64>>, AllocError> {
    match Rc::new(alloc, Cell::new(0)) {
        Ok(count) => Ok(count),
        Err(_) => Err(AllocError),
    }
}

fn tally(alloc: Global, number: u64, drops: &Rc<Cell<u64>>) -> Result<Tally, AllocError> {
    Tally::new(alloc, number, drops.clone()?)
}

// Runs words with four parts, which drive 1, 2, 3 and 4.
fn outcome_over(
    alloc: Global,
    words: &Vec<String>,
    depot: &mut MemDepot,
    out: &mut MemSink,
) -> Result<Outcome, AllocError> {
    let drops = count_of(alloc)?;
    let mut parts = Vec::new(alloc);
    let part = Box::new(alloc, tally(alloc, 1, &drops)?)?;
    push(alloc, &mut parts, "a", part)?;
    let part = Box::new(alloc, tally(alloc, 2, &drops)?)?;
    push(alloc, &mut parts, "b", part)?;
    let part = Box::new(alloc, tally(alloc, 3, &drops)?)?;
    push(alloc, &mut parts, "c", part)?;
    let part = Box::new(alloc, tally(alloc, 4, &drops)?)?;
    push(alloc, &mut parts, "d", part)?;
    let status = run(alloc, words, depot, out, &mut parts);
    outcome_after(alloc, status, out, parts, &drops)
}

/// Runs words over a file `s`, where calls fail.
pub(crate) fn outcome_of(
    alloc: Global,
    source: &[u8],
    words: &str,
    failing: Failing,
) -> Result<Outcome, NoMemory> {
    let mut files: Vec<File> = Vec::new(alloc);
    set(alloc, &mut files, "s", Vec::from_slice(alloc, source)?)?;
    let words = words_of(alloc, words)?;
    let mut depot = failing.depot(alloc, &files)?;
    let mut out = failing.sink(alloc)?;
    Ok(outcome_over(alloc, &words, &mut depot, &mut out)?)
}
