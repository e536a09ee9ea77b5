//! The text of a chip, in memory.

ghost use Rattle.std.specs.Prelude.{IfOk};
ghost use Rattle.cif_emit.specs.Emittable.{chip_rects, IsEmittable};
ghost use Rattle.chip_text.specs.Texts.{IsTextOf};

use crate::limits::TEXT_LIMIT;
use cif_emit::{Text, emit_to};
use fabric::Chip;
use mp_base::NoMemory;
use std::alloc::Global;

/// The text of commands that draw a chip.
pub(crate) fn text_of(alloc: Global, chip: &Chip) -> Result<Vec<u8>, NoMemory>
    requires { IsEmittable (chip_rects chip.now) chip.now.labels }
    ensures { IfOk result (λ text. IsTextOf chip.now text.items) }
{
    let mut text = Text::new(alloc);
    match emit_to(alloc, chip, &mut text) {
        Ok(()) if text.bytes.len() <= TEXT_LIMIT => Ok(text.bytes),
        // No text of a chip is as long as that: it has at most 3.5 million boxes, each of less than 50 bytes.
        _ => Err(NoMemory),
    }
}
