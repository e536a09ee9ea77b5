//! A run, and what is told of it.

use crate::runner::Runner;
use drawn_sizes::{is_size_at_end, is_size_of_chip};
use mp_base::NoMemory;
use outcome::Status;
use outside_doubles::QuietSink;
use run_script::{Failing, File, NONE, Output, Store, quiet_depot_of, text_of, words_of};
use std::alloc::{AllocError, Global};

/// How a run ended, what it printed, and the file `c` afterwards.
#[derive(Drop)]
pub struct Outcome {
    pub status: Status,
    pub printed: Vec<u8>,
    pub written: Option<Vec<u8>>,
}

// What a run has printed.
fn printed_in(out: &Output) -> &[u8] {
    out.told().unwrap_or(b"untold")
}

// A text that is there.
fn copy_of(alloc: Global, text: Option<&[u8]>) -> Result<Option<Vec<u8>>, AllocError> {
    match text {
        Some(text) => Ok(Some(Vec::from_slice(alloc, text)?)),
        None => Ok(None),
    }
}

// What a run that ended so has left.
fn left_by(
    alloc: Global,
    status: Status,
    store: &Store,
    out: &Output,
) -> Result<Outcome, NoMemory> {
    let printed = Vec::from_slice(alloc, printed_in(out))?;
    let written = copy_of(alloc, store.get("c"))?;
    Ok(Outcome {
        status,
        printed,
        written,
    })
}

// How a run over these files and this output ends.
fn outcome_over<R: Runner>(
    alloc: Global,
    runner: &R,
    words: &str,
    store: &mut Store,
    out: &mut Output,
) -> Result<Outcome, NoMemory> {
    let words = words_of(alloc, words)?;
    let status = runner.run(alloc, &words, store, out);
    left_by(alloc, status, store, out)
}

// The same, where the files and the output are let go then.
fn outcome_of<R: Runner>(
    alloc: Global,
    runner: &R,
    words: &str,
    mut store: Store,
    mut out: Output,
) -> Result<Outcome, NoMemory> {
    let outcome = outcome_over(alloc, runner, words, &mut store, &mut out);
    drop(store);
    drop(out);
    outcome
}

/// A run over these files, where calls fail.
pub fn answer<R: Runner>(
    alloc: Global,
    runner: &R,
    files: &[File],
    words: &str,
    failing: Failing,
) -> Result<Outcome, NoMemory> {
    let out = Output::Failing(failing.sink(alloc)?);
    let store = Store::Failing(failing.depot(alloc, files)?);
    outcome_of(alloc, runner, words, store, out)
}

// The room of files and output whose calls never fail.
const ROOM: usize = 16_777_216;

/// A run over these files, whose calls never fail.
pub(crate) fn quiet_answer<R: Runner>(
    alloc: Global,
    runner: &R,
    files: &[File],
    words: &str,
) -> Result<Outcome, NoMemory> {
    let out = Output::Quiet(QuietSink::new(alloc, ROOM)?);
    let store = Store::Quiet(quiet_depot_of(alloc, files, ROOM)?);
    outcome_of(alloc, runner, words, store, out)
}

/// A run over files that never end.
pub(crate) fn endless_answer<R: Runner>(
    alloc: Global,
    runner: &R,
    words: &str,
) -> Result<Outcome, NoMemory> {
    let out = Output::Failing(NONE.sink(alloc)?);
    outcome_of(alloc, runner, words, Store::Endless, out)
}

// Whether lines tell the size of the chip in the file `c`.
fn tells_chip(alloc: Global, files: &[File], lines: &str) -> bool {
    match text_of(files, "c") {
        Some(masks) => is_size_of_chip(alloc, masks, lines),
        None => false,
    }
}

// Whether a line tells the size of the masks in the file `c` at the end of the stimulus in the file `t`.
fn tells_end(alloc: Global, files: &[File], line: &str) -> bool {
    match (text_of(files, "c"), text_of(files, "t")) {
        (Some(masks), Some(stimulus)) => is_size_at_end(alloc, masks, stimulus, line),
        _ => false,
    }
}

impl Outcome {
    /// The file `c` afterwards.
    pub fn text(&self) -> Option<&[u8]> {
        match &self.written {
            Some(text) => Some(text),
            None => None,
        }
    }

    /// Whether the line that it printed begins so.
    pub(crate) fn is_refused_by(&self, rule: &str) -> bool {
        self.status == Status::Refused && self.printed.starts_with(rule.as_bytes())
    }

    /// Tells the status and what was printed.
    pub(crate) fn push(
        &self,
        alloc: Global,
        told: &mut String,
        files: &[File],
    ) -> Result<(), NoMemory> {
        writeln!(told, "    {:?}", self.status)?;
        let printed = String::from_utf8_lossy(alloc, &self.printed)?;
        push_printed(alloc, told, files, &printed)
    }
}

// Tells a line, or that it is the size of the masks in the file `c` at the end of the stimulus in the file `t`.
fn push_printed_line(
    alloc: Global,
    told: &mut String,
    files: &[File],
    line: &str,
) -> Result<(), AllocError> {
    if tells_end(alloc, files, line) {
        told.push_str("    the size of c at the end of t\n")
    } else {
        writeln!(told, "    {line}")
    }
}

// Tells what was printed. In place of the size of the masks in the file `c`, alone or at the end of the stimulus in the
// file `t`, it says so, since the layout is free.
fn push_printed(
    alloc: Global,
    told: &mut String,
    files: &[File],
    printed: &str,
) -> Result<(), NoMemory> {
    if let Some((weight, size)) = printed.split_once('\n') {
        if tells_chip(alloc, files, size) {
            let bands = size.lines().count().wrapping_sub(2);
            return Ok(writeln!(told, "    {weight}\n    the size of c in {bands} bands")?);
        }
    }
    for line in printed.lines() {
        push_printed_line(alloc, told, files, line)?;
    }
    Ok(())
}
