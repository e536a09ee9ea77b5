//! How runs end of which a call fails, in short.

use crate::one_run::{Outcome, answer};
use crate::runner::Runner;
use mp_base::NoMemory;
use outcome::Status;
use run_script::{Failing, File, NONE, Side, text_of};
use std::alloc::{AllocError, Global};

/// How much of a text is there; of a file also that it has what it had.
#[derive(Clone, Copy, Debug, PartialEq, Eq)]
enum Extent {
    Nothing,
    Kept,
    Part,
    Whole,
    Another,
}

// How a run ended, beside how it ends where nothing fails.
#[derive(Clone, Copy, PartialEq, Eq)]
struct End {
    status: Status,
    printed: Extent,
    written: Extent,
}

fn extent_of(text: &[u8], whole: &[u8]) -> Extent {
    if text.is_empty() {
        Extent::Nothing
    } else if text == whole {
        Extent::Whole
    } else if whole.starts_with(text) {
        Extent::Part
    } else {
        Extent::Another
    }
}

// What a run left in the file `c`, beside what it leaves where nothing fails.
fn left(had: Option<&[u8]>, text: &[u8], whole: Option<&[u8]>) -> Extent {
    match (had, whole) {
        (Some(had), _) if had == text => Extent::Kept,
        (_, Some(whole)) => extent_of(text, whole),
        _ => Extent::Another,
    }
}

fn end_of(files: &[File], outcome: &Outcome, whole: &Outcome) -> End {
    let written = match outcome.text() {
        Some(text) => left(text_of(files, "c"), text, whole.text()),
        None => Extent::Kept,
    };
    End {
        status: outcome.status,
        printed: extent_of(&outcome.printed, &whole.printed),
        written,
    }
}

fn push_end(told: &mut String, end: End) -> Result<(), AllocError> {
    writeln!(
        told,
        "    {:?}, printed {:?}, c {:?}",
        end.status, end.printed, end.written
    )
}

// The end where a call fails.
fn end_at<R: Runner>(
    alloc: Global,
    runner: &R,
    files: &[File],
    words: &str,
    failing: Failing,
    whole: &Outcome,
) -> Result<End, NoMemory> {
    let outcome = answer(alloc, runner, files, words, failing)?;
    Ok(end_of(files, &outcome, whole))
}

// Each call of the files or of the output fails in turn, beside how the run ends where none fails.
fn push_ends_beside<R: Runner>(
    alloc: Global,
    told: &mut String,
    runner: &R,
    files: &[File],
    words: &str,
    side: Side,
    whole: &Outcome,
) -> Result<(), NoMemory> {
    let mut last = None;
    for call in 0..100_000 {
        let end = end_at(alloc, runner, files, words, side.failing(call), whole)?;
        if last != Some(end) {
            push_end(told, end)?;
            last = Some(end);
        }
        if end.status == Status::Done {
            return Ok(());
        }
    }
    Ok(())
}

/// Each call of the files or of the output fails in turn. Runs in a row that end alike are told once.
pub(crate) fn push_ends<R: Runner>(
    alloc: Global,
    told: &mut String,
    runner: &R,
    files: &[File],
    words: &str,
    side: Side,
) -> Result<(), NoMemory> {
    let whole = answer(alloc, runner, files, words, NONE)?;
    push_ends_beside(alloc, told, runner, files, words, side, &whole)
}

// Tells an end, and how many bytes the file `c` has then.
fn push_end_in_bytes(
    told: &mut String,
    files: &[File],
    outcome: &Outcome,
    whole: &Outcome,
) -> Result<(), NoMemory> {
    push_end(told, end_of(files, outcome, whole))?;
    let length = outcome.text().unwrap_or(b"").len();
    Ok(writeln!(told, "    {length} bytes")?)
}

/// An append takes one byte, and one call of the files fails: how many bytes the file `c` has then.
pub(crate) fn push_bytewise<R: Runner>(
    alloc: Global,
    told: &mut String,
    runner: &R,
    files: &[File],
    words: &str,
    call: u64,
) -> Result<(), NoMemory> {
    let failing = Failing {
        of_files: Some(call),
        of_output: None,
        bytewise: true,
    };
    let whole = answer(alloc, runner, files, words, NONE)?;
    let outcome = answer(alloc, runner, files, words, failing)?;
    push_end_in_bytes(told, files, &outcome, &whole)
}
