//! Lists of files and runs.

use crate::ends::{push_bytewise, push_ends};
use crate::one_run::{Outcome, answer, endless_answer, quiet_answer};
use crate::runner::Runner;
use drawn_sizes::counts_around;
use mp_base::NoMemory;
use outcome::Status;
use run_script::{Failing, File, NONE, Side, Step, set, step_of, text_of};
use std::alloc::{AllocError, Global};
use symbol_calls::push_symbols;

// Whether a run that ended so is the last of those whose calls fail in turn.
fn is_last(side: Side, status: Status) -> bool {
    match side {
        Side::Files => status == Status::Done,
        Side::Output => status != Status::WriteFault,
    }
}

fn push_call(told: &mut String, side: Side, call: u64) -> Result<(), AllocError> {
    match side {
        Side::Files => writeln!(told, "    call {call} of the files fails"),
        Side::Output => writeln!(told, "    call {call} of the output fails"),
    }
}

// Runs words over the files, where calls fail.
fn push_answer<R: Runner>(
    alloc: Global,
    told: &mut String,
    runner: &R,
    files: &[File],
    words: &str,
    failing: Failing,
) -> Result<Status, NoMemory> {
    let found = answer(alloc, runner, files, words, failing)?;
    found.push(alloc, told, files)?;
    Ok(found.status)
}

// Each call of the files or of the output fails in turn.
fn push_fails<R: Runner>(
    alloc: Global,
    told: &mut String,
    runner: &R,
    files: &[File],
    words: &str,
    side: Side,
) -> Result<(), NoMemory> {
    for call in 0..20 {
        push_call(told, side, call)?;
        let status = push_answer(alloc, told, runner, files, words, side.failing(call))?;
        if is_last(side, status) {
            return Ok(());
        }
    }
    Ok(())
}

// The only file `f`.
fn only_file(alloc: Global, text: &[u8]) -> Result<Vec<File>, AllocError> {
    let mut files = Vec::new(alloc);
    set(alloc, &mut files, "f", Vec::from_slice(alloc, text)?)?;
    Ok(files)
}

// Tells what `net` does of a front of masks, where it doesn't refuse it by C1.
fn push_unless_cut(
    alloc: Global,
    told: &mut String,
    files: &[File],
    size: usize,
    found: &Outcome,
) -> Result<(), NoMemory> {
    if found.is_refused_by("error C1 at ") {
        return Ok(());
    }
    writeln!(told, "    {size} bytes")?;
    found.push(alloc, told, files)
}

// A front of masks.
fn push_front<R: Runner>(
    alloc: Global,
    told: &mut String,
    runner: &R,
    front: &[u8],
) -> Result<(), NoMemory> {
    let files = only_file(alloc, front)?;
    let found = answer(alloc, runner, &files, "net f", NONE)?;
    push_unless_cut(alloc, told, &files, front.len(), &found)
}

// The fronts of a text of masks that `net` refuses by another rule than C1.
fn push_fronts<R: Runner>(
    alloc: Global,
    told: &mut String,
    runner: &R,
    text: &str,
) -> Result<(), NoMemory> {
    let bytes = text.as_bytes();
    for size in 0..bytes.len() {
        push_front(alloc, told, runner, &bytes[..size])?;
    }
    Ok(())
}

// Sets the file `c`, where a run has written it anew.
fn keep(
    alloc: Global,
    told: &mut String,
    files: &mut Vec<File>,
    written: &[u8],
) -> Result<(), AllocError> {
    if text_of(files, "c") == Some(written) {
        return Ok(());
    }
    set(alloc, files, "c", Vec::from_slice(alloc, written)?)?;
    told.push_str("    c is new\n")
}

// Keeps what a run has written, and tells of the run.
fn push_kept(
    alloc: Global,
    told: &mut String,
    files: &mut Vec<File>,
    found: &Outcome,
) -> Result<(), NoMemory> {
    if let Some(written) = found.text() {
        keep(alloc, told, files, written)?;
    }
    found.push(alloc, told, files)
}

// Runs words over the files.
fn push_run<R: Runner>(
    alloc: Global,
    told: &mut String,
    runner: &R,
    files: &mut Vec<File>,
    words: &str,
) -> Result<(), NoMemory> {
    let found = answer(alloc, runner, files, words, NONE)?;
    push_kept(alloc, told, files, &found)
}

// The symbols of the masks in a file.
fn push_masks(
    alloc: Global,
    told: &mut String,
    files: &[File],
    name: &str,
) -> Result<(), NoMemory> {
    if let Some(masks) = text_of(files, name) {
        push_symbols(alloc, told, masks)?;
    }
    Ok(())
}

// The counts of the values of a circuit, whose masks and stimulus are in two files.
fn push_values(
    alloc: Global,
    told: &mut String,
    files: &[File],
    names: &str,
) -> Result<(), AllocError> {
    let (masks, stimulus) = names.split_once(' ').unwrap_or((names, ""));
    let (Some(masks), Some(stimulus)) = (text_of(files, masks), text_of(files, stimulus)) else {
        return Ok(());
    };
    match counts_around(alloc, masks, stimulus) {
        Some(counts) => {
            let counts = String::from_utf8_lossy(alloc, &counts)?;
            writeln!(told, "   {counts}")
        }
        None => Ok(()),
    }
}

fn push_step<R: Runner>(
    alloc: Global,
    told: &mut String,
    runner: &R,
    files: &mut Vec<File>,
    step: Step<'_>,
) -> Result<(), NoMemory> {
    match step {
        Step::Set(name, content) => Ok(set(alloc, files, name, content.bytes(alloc)?)?),
        Step::Fronts(text) => push_fronts(alloc, told, runner, text),
        Step::EachFails(side, words) => push_fails(alloc, told, runner, files, words, side),
        Step::EachEnds(side, words) => push_ends(alloc, told, runner, files, words, side),
        Step::Bytewise(call, words) => push_bytewise(alloc, told, runner, files, words, call),
        Step::Quiet(words) => quiet_answer(alloc, runner, files, words)?.push(alloc, told, files),
        Step::Endless(words) => endless_answer(alloc, runner, words)?.push(alloc, told, files),
        Step::Symbols(name) => push_masks(alloc, told, files, name),
        Step::Values(names) => Ok(push_values(alloc, told, files, names)?),
        Step::Run(words) => push_run(alloc, told, runner, files, words),
    }
}

/// Follows a line of a list, and tells the line and what came of it. A line sets a file, or runs words over the files
/// that are set.
///
/// # Errors
///
/// Want of memory here; that of a run is told.
pub fn push_line<R: Runner>(
    alloc: Global,
    told: &mut String,
    runner: &R,
    files: &mut Vec<File>,
    line: &str,
) -> Result<(), NoMemory> {
    writeln!(told, "{line}")?;
    push_step(alloc, told, runner, files, step_of(line))
}
