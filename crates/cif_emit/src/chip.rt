//! Chips as commands.

ghost use Rattle.std.specs.Prelude.{◌≡◌, IfOk};
ghost use Rattle.cif_writer.specs.Texts.{commands_of};
ghost use Rattle.cif_emit.specs.Emittable.{AreDrawable, chip_rects, IsEmittable};
ghost use Rattle.cif_emit.specs.Emitted.{AreCommandsOf, IsEmitted};
ghost use Rattle.cif_emit.specs.Commands.{chip_commands};

use crate::cursor::Cursor;
use crate::laws::commands_draw_the_chip;
use crate::slices::{bands_of, symbols_for};
use cif_list::Cif;
use fabric::{Chip, ChipLabel};
use mp_base::NoMemory;
use slice_symbols::Symbol;
use std::alloc::Global;

// The commands of symbols and labels.
fn cif_of(alloc: Global, symbols: &[Symbol], labels: &[ChipLabel]) -> Result<Cif, NoMemory>
    requires { AreDrawable symbols.now labels.now }
    ensures { IfOk result (λ cif. commands_of cif ≡ chip_commands symbols.now labels.now) }
{
    let mut cif = Cif::new(alloc);
    let mut cursor = Cursor::Start(0);
    while let Some(command) = cursor.next(alloc, symbols, labels)? {
        cif.push(0, &command)?;
    }
    Ok(cif)
}

/// The commands of a chip: two symbols, each with a box for each of its rectangles that covers something, layer by
/// layer, and its calls, and the chip's labels. One symbol has what stands alike in each band of the fabric but the
/// lowest, and is called once for each of these; the other has the rest, and is called once. They draw the squares of
/// the chip, in no more shapes than it has rectangles, and its labels.
/// No rule is broken in reading them, and none in drawing them but perhaps F7: a walk counts at most the chip's
/// rectangles, its labels and 65,536 more.
///
/// All corners are on whole lambda of 500 half-units, and they and the labels are below 2^31 half-units in size. The
/// layer of a label conducts (NM, NP or ND), and its name has at least one byte and neither `;` nor a space, tab, line
/// feed or carriage return.
///
/// # Errors
///
/// `NoMemory`, also for 2^32 commands or more.
pub fn emit(alloc: Global, chip: &Chip) -> Result<Cif, NoMemory>
    requires { IsEmittable (chip_rects chip.now) chip.now.labels }
    ensures commands { IfOk result (λ cif. AreCommandsOf chip.now (commands_of cif)) }
    ensures drawn { IfOk result (λ cif. IsEmitted (chip_rects chip.now) chip.now.labels (commands_of cif)) }
{
    commands_draw_the_chip();
    let symbols = symbols_for(alloc, chip, bands_of(&chip.fabric))?;
    cif_of(alloc, symbols.as_slice(), chip.labels.as_slice())
}
