//! A source and a stimulus.

ghost use Rattle.std.specs.Prelude.{◌≡◌, IfOk};
ghost use Rattle.program_maker.specs.Texts.{source_text, stimulus_text};

use crate::draws::Draws;
use crate::source::source;
use crate::stimulus::stimulus;
use mp_base::{Name, NoMemory};
use std::alloc::Global;

/// The texts of a source and of a stimulus for it.
#[derive(Drop)]
pub struct Made {
    pub source: Name,
    pub stimulus: Name,
}

/// Makes a source and a stimulus of a number: one line for each of 12 registers of 16 bits, with an operator and
/// operands that are drawn; and a reset with 64 clocks, whose inputs are drawn behind these.
///
/// # Errors
///
/// Want of memory.
pub fn make(alloc: Global, seed: u64) -> Result<Made, NoMemory>
    ensures source { IfOk result (λ made. made.source ≡ source_text seed) }
    ensures stimulus { IfOk result (λ made. made.stimulus ≡ stimulus_text seed) }
{
    let mut draws = Draws { state: seed };
    let source = source(alloc, &mut draws)?;
    let stimulus = stimulus(alloc, &mut draws)?;
    Ok(Made {
        source: Name::from_vec(source),
        stimulus: Name::from_vec(stimulus),
    })
}
