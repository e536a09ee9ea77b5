//! The text of a chip, in pieces.

ghost use Rattle.std.specs.Prelude.{◌≡◌, ◌++◌, [], codes, OnOk, Some};
ghost use Rattle.outside.specs.Outside.{Gains, HasCause};
ghost use Rattle.outside.specs.Piece.{TakesAll};
ghost use Rattle.cif_form.specs.Fits.{Fits};
ghost use Rattle.cif_form.specs.Writing.{text_of};
ghost use Rattle.cif_writer.specs.Texts.{file_text};
ghost use Rattle.cif_emit.specs.Emittable.{AreDrawable, chip_rects, IsEmittable};
ghost use Rattle.cif_emit.specs.Emitted.{IsTaken};
ghost use Rattle.cif_emit.specs.Commands.{chip_commands};
ghost use Rattle.cif_emit.specs.Stream.{PutsOff, FaultHasCause};

use crate::cursor::Cursor;
use crate::laws::commands_draw_the_chip;
use crate::slices::{bands_of, symbols_for};
use crate::text::Text;
use cif_form::Command;
use cif_writer::{write_command, write_end};
use fabric::{Chip, ChipLabel};
use mp_base::NoMemory;
use outside::{Failed, Fault, Sink, write_all};
use slice_symbols::Symbol;
use slice_symbols::laws::symbols_exist;
use std::alloc::Global;

const PIECE: usize = 65536;

// Puts the text of a command behind what is put off.
fn put_off(waiting: &mut Text, command: Command) -> Result<(), NoMemory>
    requires { Fits command }
    ensures { OnOk result (waiting.new.bytes.items ≡ waiting.old.bytes.items ++ (text_of command ++ codes ";\n")) }
{
    match write_command(&command, waiting) {
        Ok(()) => Ok(()),
        Err(Failed) => Err(NoMemory),
    }
}

// Writes what is put off, if there is enough of it.
fn write_piece<O: Sink>(out: &mut O, waiting: &mut Text) -> Result<(), Failed>
    ensures put_off { PutsOff (O.held out.old) (O.held out.new) waiting.old.bytes.items waiting.new.bytes.items result }
    ensures cause { HasCause (O.faults out.old) (O.faults out.new) result }
{
    if waiting.bytes.len() < PIECE {
        return Ok(());
    }
    write_all(out, waiting.bytes.as_slice())?;
    waiting.bytes.clear();
    Ok(())
}

// Puts off the end of a file.
fn put_off_end(waiting: &mut Text) -> Result<(), NoMemory>
    ensures { OnOk result (waiting.new.bytes.items ≡ waiting.old.bytes.items ++ codes "E\n") }
{
    match write_end(waiting) {
        Ok(()) => Ok(()),
        Err(Failed) => Err(NoMemory),
    }
}

// Writes the file of symbols and labels but for what is put off at the end.
fn write_pieces<O: Sink>(
    alloc: Global,
    symbols: &[Symbol],
    labels: &[ChipLabel],
    out: &mut O,
    waiting: &mut Text,
) -> Result<(), Fault>
    requires drawable { AreDrawable symbols.now labels.now }
    requires none { waiting.old.bytes.items ≡ [] }
    ensures put_off { PutsOff (O.held out.old) (O.held out.new) (file_text (chip_commands symbols.now labels.now))
        waiting.new.bytes.items result }
    ensures cause { FaultHasCause (O.faults out.old) (O.faults out.new) result }
{
    let mut cursor = Cursor::Start(0);
    while let Some(command) = cursor.next(alloc, symbols, labels)? {
        put_off(waiting, command)?;
        write_piece(out, waiting)?;
    }
    put_off_end(waiting)?;
    Ok(())
}

/// Writes the text of the commands that [`emit`](crate::emit) gives and the end of the file, in pieces, and holds one
/// command at a time. The condition on the chip is that of `emit`.
///
/// # Errors
///
/// `Write` where the output failed, and `NoMemory`. A first part of the text was written then, but not all.
pub fn emit_to<O: Sink>(alloc: Global, chip: &Chip, out: &mut O) -> Result<(), Fault>
    requires { IsEmittable (chip_rects chip.now) chip.now.labels }
    ensures taken { IsTaken chip.now (O.held out.old) (O.held out.new) result }
    ensures cause { FaultHasCause (O.faults out.old) (O.faults out.new) result }
{
    commands_draw_the_chip();
    symbols_exist();
    let symbols = symbols_for(alloc, chip, bands_of(&chip.fabric))?;
    let mut waiting = Text::new(alloc);
    write_pieces(
        alloc,
        symbols.as_slice(),
        chip.labels.as_slice(),
        out,
        &mut waiting,
    )?;
    write_all(out, waiting.bytes.as_slice())?;
    Ok(())
}
