//! What is told of an end.

ghost use Rattle.outcome.specs.Line.{line_of};
ghost use Rattle.outcome.specs.World.{IsSaid, IsTold};

use crate::line::line;
use crate::status::Status;
use mp_base::Broken;
use outside::{Failed, Sink, write_all};
use std::alloc::Global;

/// Prints a text, and answers the status, or a write fault where it could not be printed whole.
pub fn say<O: Sink>(out: &mut O, text: &[u8], status: Status) -> Status
    ensures { IsSaid status text.now (O.held out.old) (O.held out.new) (O.faults out.old) (O.faults out.new) result }
{
    match write_all(out, text) {
        Ok(()) => status,
        Err(Failed) => Status::WriteFault,
    }
}

/// Prints the line of a broken rule, and answers `Refused`, or what kept it from being printed.
pub fn refuse<O: Sink>(alloc: Global, out: &mut O, broken: &Broken) -> Status
    ensures { IsTold (line_of broken.now) (O.held out.old) (O.held out.new)
        (O.faults out.old) (O.faults out.new) result }
{
    match line(alloc, broken) {
        Ok(text) => say(out, &text, Status::Refused),
        Err(_) => Status::NoMemory,
    }
}
