//! The chip of a program.

ghost use Rattle.std.specs.Prelude.{◌+◌, ◌≤◌, List, IfOk, length};
ghost use Rattle.mp_program.specs.Weight.{weight as weight_of};
ghost use Rattle.cif_form.specs.declared.command.Command.{Command};
ghost use Rattle.cif_writer.specs.Texts.{file_text};
ghost use Rattle.cif_emit.specs.Emittable.{chip_rects, IsEmittable};
ghost use Rattle.cif_emit.specs.Emitted.{IsEmitted};
ghost use Rattle.compile_laws.specs.Laws.{IsSmallChipOf};
ghost use Rattle.chip_text.specs.Texts.{IsPlainChipOf, most_drawn};

use crate::text::text_of;
use cif_form::laws::{reading_is_unique, written_is_read};
use compile_laws::laws::chips_are_made;
use fabric::Chip;
use mp_base::NoMemory;
use mp_checker::{Checked, weight};
use path_plan::Planned;
use process_sequencer::sequence;
use slice_plan::plan;
use std::alloc::Global;

// The chip of a program: commands that draw it have a text that is one. What it is made from is let go.
fn chip_of(alloc: Global, checked: &Checked) -> Result<Chip, NoMemory>
    ensures emittable { IfOk result (λ chip. IsEmittable (chip_rects chip) chip.labels) }
    ensures few { IfOk result (λ chip. length (chip_rects chip) + length chip.labels
        ≤ most_drawn (weight_of checked.now.program) checked.now.program.width) }
    ensures made { IfOk result (λ chip. (commands : List Command) → IsEmitted (chip_rects chip) chip.labels commands
        → IsSmallChipOf checked.now.program (file_text commands)) }
{
    checked.unbroken();
    chips_are_made(checked.program());
    let _light = weight(checked);
    let rtl = sequence(alloc, checked)?;
    let Planned {
        chip,
        columns: _,
        rows: _,
        groups: _,
    } = plan(alloc, &rtl)?;
    Ok(chip)
}

/// The text of the CIF file of a program's chip. It draws at most 100 · (weight + 8) · (word length + 1) shapes, in
/// few commands, which are plain: no byte of it is a comment.
///
/// # Errors
///
/// `NoMemory`, also for a text of more than [`TEXT_LIMIT`](crate::TEXT_LIMIT) bytes.
pub fn chip_text(alloc: Global, checked: &Checked) -> Result<Vec<u8>, NoMemory>
    ensures { IfOk result (λ text. IsPlainChipOf checked.now.program text.items) }
{
    written_is_read();
    reading_is_unique();
    let chip = chip_of(alloc, checked)?;
    text_of(alloc, &chip)
}
