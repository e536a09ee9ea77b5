//! A program on a board: what it prints, and how its parts move.

ghost use Rattle.std.specs.Prelude.{◌≡◌, ◌<◌, ◌^◌, All, IfOk, length};
ghost use Rattle.board.specs.Boarding.{AreWires};

use crate::joined::{told_by, with};
use crate::row::Row;
use crate::watch::Watch;
use board::{Board, Link, NamedPart, read_links};
use board_parts::Echo;
use mp_base::{Broken, List, Pads, Refusal, Spot};
use mp_checker::Checked;
use mp_source::check_source;
use outside_doubles::MemSink;
use std::alloc::{AllocError, Global};
use std::{fs, io};
use trace_run::Source;

/// What a board printed, and what its parts drive afterwards.
#[derive(Drop)]
struct Outcome {
    printed: Vec<u8>,
    told: String,
}

fn add_words(alloc: Global, words: &mut Vec<String>, text: &str) -> Result<(), AllocError> {
    for word in text.split(' ') {
        words.push(String::from_str(alloc, word)?)?;
    }
    Ok(())
}

fn words_of(alloc: Global, text: &str) -> Result<Vec<String>, AllocError> {
    let mut words = Vec::new(alloc);
    add_words(alloc, &mut words, text)?;
    Ok(words)
}

// A program of few bytes and few pads.
fn checked(alloc: Global, source: &[u8]) -> Result<Checked, Refusal> {
    if source.len() > 9999 {
        return Err(Refusal::NoMemory);
    }
    check_source(alloc, source)
}

// The links that words stand for.
fn links_of(
    alloc: Global,
    words: &str,
    parts: &[NamedPart],
    pads: &Pads,
) -> Result<List<Link>, Refusal>
    requires parts { length parts.now < 2 ^ 32 }
    requires inputs { length pads.now.inputs < 2 ^ 32 }
    requires outputs { length pads.now.outputs < 2 ^ 32 }
    ensures wires { IfOk result (AreWires pads.now) }
    ensures parts { IfOk result (λ links. All (λ l. l.part < length parts.now) links) }
{
    let words = words_of(alloc, words)?;
    read_links(alloc, &words, parts, pads)
}

// Runs a program on a board that has run no clock, with these parts.
fn run_on(
    alloc: Global,
    checked: &Checked,
    board: &mut Board<'_>,
    parts: &mut Vec<NamedPart>,
    clocks: u32,
    out: &mut MemSink,
) -> Result<(), Refusal>
    requires pads { checked.now.pads ≡ board.old.wired.pads }
    requires parts { All (λ l. l.part < length parts.old.items) board.old.wired.links }
    requires done { board.old.done ≡ 0 }
{
    let mut device = Source::open(alloc, checked, checked.pads())?;
    let _written = board.run(&mut device, parts, clocks, out);
    drop(device);
    Ok(())
}

// Runs a program on a board with these parts.
fn run(
    alloc: Global,
    checked: &Checked,
    row: Row<'_>,
    parts: &mut Vec<NamedPart>,
    out: &mut MemSink,
) -> Result<(), Refusal> {
    let pads = checked.pads();
    if pads.inputs.len() > 9 || pads.outputs.len() > 9 || parts.len() > 9 {
        return Err(Refusal::NoMemory);
    }
    let links = links_of(alloc, row.links, parts, pads)?;
    let mut board = Board::open(alloc, pads, links, checked.stores())?;
    run_on(alloc, checked, &mut board, parts, row.clocks, out)
}

// What was printed, and what the parts drive then.
fn outcome_after(alloc: Global, printed: &[u8], parts: &[NamedPart]) -> Result<Outcome, Refusal> {
    let printed = Vec::from_slice(alloc, printed)?;
    let told = told_by(alloc, parts)?;
    Ok(Outcome { printed, told })
}

// Runs the program of a row with these parts.
fn outcome_with(
    alloc: Global,
    checked: &Checked,
    row: Row<'_>,
    parts: &mut Vec<NamedPart>,
) -> Result<Outcome, Refusal> {
    let mut out = MemSink::new(alloc, List::new(alloc));
    run(alloc, checked, row, parts, &mut out)?;
    outcome_after(alloc, out.bytes(), parts)
}

// Runs the program of a row with a part that counts its moves and an echo.
fn outcome_of(
    alloc: Global,
    checked: &Checked,
    row: Row<'_>,
) -> Result<Result<Outcome, Refusal>, AllocError> {
    let watch = Watch { moves: 0, seen: 0 };
    let parts = with(alloc, Vec::new(alloc), "watch", Box::new(alloc, watch)?)?;
    let mut parts = with(alloc, parts, "echo", Box::new(alloc, Echo::new())?)?;
    Ok(outcome_with(alloc, checked, row, &mut parts))
}

fn show_broken(rt: &HostRuntime, broken: &Broken) -> io::Result<()> {
    let number = broken.rule.number;
    match &broken.spot {
        Spot::Named(name) => {
            let word = String::from_utf8_lossy(rt.alloc(), name.bytes())?;
            println!(rt; "    B{number} {word}")
        }
        _ => println!(rt; "    another rule"),
    }
}

fn show_refusal(rt: &HostRuntime, refusal: &Refusal) -> io::Result<()> {
    match refusal {
        Refusal::Broken(broken) => show_broken(rt, broken),
        Refusal::NoMemory => println!(rt; "    not enough memory"),
    }
}

fn show_lines(rt: &HostRuntime, text: &[u8]) -> io::Result<()> {
    let text = String::from_utf8_lossy(rt.alloc(), text)?;
    for line in text.lines() {
        println!(rt; "    {line}")?;
    }
    Ok(())
}

fn show_outcome(rt: &HostRuntime, outcome: &Outcome) -> io::Result<()> {
    show_lines(rt, &outcome.printed)?;
    println!(rt; "   {}", outcome.told)
}

fn show_run(rt: &HostRuntime, checked: &Checked, row: Row<'_>) -> io::Result<()> {
    match outcome_of(rt.alloc(), checked, row)? {
        Ok(outcome) => show_outcome(rt, &outcome),
        Err(refusal) => show_refusal(rt, &refusal),
    }
}

// The checked program of a file, or why there is none.
fn program_of(rt: &HostRuntime, name: &str) -> io::Result<Result<Checked, Refusal>> {
    let source = fs::read(rt, name)?;
    Ok(checked(rt.alloc(), &source))
}

/// Prints the lines of the board's transcript, or the rule that its links break, and what the parts drive at the end.
pub(crate) fn show_board(rt: &HostRuntime, row: Row<'_>) -> io::Result<()> {
    match program_of(rt, row.source)? {
        Ok(checked) => {
            let shown = show_run(rt, &checked, row);
            drop(checked);
            shown
        }
        Err(refusal) => show_refusal(rt, &refusal),
    }
}
