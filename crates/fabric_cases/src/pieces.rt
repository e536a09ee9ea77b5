//! The text of a chip, and its pieces.

ghost use Rattle.cif_emit.specs.Emittable.{IsEmittable, chip_rects};

use crate::chip::chip;
use cif_emit::{emit, emit_to};
use cif_writer::write_file;
use fabric::Chip;
use mp_base::List;
use outside_doubles::MemSink;
use std::io;

// Whether the text that is written in pieces is this one.
fn show_pieces(rt: &HostRuntime, chip: &Chip, text: &[u8]) -> io::Result<()>
    requires { IsEmittable (chip_rects chip.now) chip.now.labels }
{
    let mut sink = MemSink::new(rt.alloc(), List::new(rt.alloc()));
    match emit_to(rt.alloc(), chip, &mut sink) {
        Ok(()) if sink.bytes() == text => println!(rt; "    the same in pieces"),
        Ok(()) => println!(rt; "    another text in pieces"),
        Err(fault) => println!(rt; "    {fault:?}"),
    }
}

// What is written where a call of that number fails.
fn show_fault(rt: &HostRuntime, chip: &Chip, call: u64) -> io::Result<()>
    requires { IsEmittable (chip_rects chip.now) chip.now.labels }
{
    let mut calls = List::new(rt.alloc());
    if calls.push(call).is_err() {
        return println!(rt; "not enough memory");
    }
    let mut sink = MemSink::new(rt.alloc(), calls);
    match emit_to(rt.alloc(), chip, &mut sink) {
        Ok(()) => println!(rt; "    {} bytes", sink.bytes().len()),
        Err(fault) => println!(rt; "    {fault:?} behind {} bytes", sink.bytes().len()),
    }
}

// The text of the commands of a chip, and what is written of it in pieces.
fn show_written(rt: &HostRuntime, chip: &Chip) -> io::Result<()>
    requires { IsEmittable (chip_rects chip.now) chip.now.labels }
{
    let Ok(commands) = emit(rt.alloc(), chip) else {
        return println!(rt; "not enough memory");
    };
    let mut sink = MemSink::new(rt.alloc(), List::new(rt.alloc()));
    if write_file(&commands, &mut sink).is_err() {
        return println!(rt; "a fault");
    }
    let words = String::from_utf8_lossy(rt.alloc(), sink.bytes())?;
    print!(rt; "{words}")?;
    show_pieces(rt, chip, sink.bytes())?;
    show_fault(rt, chip, 0)
}

/// The text of a chip whose fabric has nothing in it, the same in pieces, and what is written where the first call fails.
pub(crate) fn show_chip(rt: &HostRuntime) -> io::Result<()> {
    match chip(rt.alloc()) {
        Ok(chip) => show_written(rt, &chip),
        Err(_) => println!(rt; "not enough memory"),
    }
}
