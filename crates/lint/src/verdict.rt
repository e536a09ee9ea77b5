//! The first mistake of a source and of a stimulus for it.

ghost use Rattle.std.specs.Prelude.{◌≡◌, Some, IfOk};
ghost use Rattle.mp_base.specs.Refuses.{IsJudged};
ghost use Rattle.mp_program.specs.Pads.{ArePadsOf};
ghost use Rattle.mp_source.specs.Source.{IsSource, OfSource};
ghost use Rattle.stimulus.specs.Reading.{OfPads};
ghost use Rattle.outcome.specs.Order.{too_long};
ghost use Rattle.lint.specs.Verdict.{OfHeld, fault_of};

use crate::file::File;
use mp_base::{Broken, Family, Name, Pads, Refusal, Rule, Spot};
use mp_checker::Checked;
use mp_source::check_source;
use source_files::TEXT_LIMIT;
use std::alloc::{AllocError, Global};
use stimulus::{Stimulus, read_stimulus};

fn too_long(alloc: Global, name: &[u8]) -> Result<Broken, AllocError>
    ensures { IfOk result (λ broken. broken ≡ too_long name.now) }
{
    Ok(Broken {
        rule: Rule {
            family: Family::L,
            number: 1,
        },
        spot: Spot::Named(Name::from_slice(alloc, name)?),
    })
}

/// Judges a source.
///
/// # Errors
/// The first broken rule of L1 and E, or want of memory.
pub(crate) fn judge_source(alloc: Global, file: File) -> Result<Checked, Refusal>
    ensures judged { IsJudged (λ first. OfHeld OfSource file.entry (fault_of first)) result }
    ensures source { IfOk result (λ checked. IsSource file.entry.bytes.now checked.program) }
{
    if file.bytes.len() > TEXT_LIMIT {
        return Err(Refusal::Broken(too_long(alloc, file.name)?));
    }
    check_source(alloc, file.bytes)
}

/// Judges a stimulus for these pads. There is no memory for 2^32 of them.
///
/// # Errors
/// The first broken rule of L1 and S, or want of memory.
pub(crate) fn judge_stimulus(alloc: Global, file: File, pads: &Pads) -> Result<Stimulus, Refusal>
    ensures { IsJudged (λ first. OfHeld (OfPads (Some pads.now)) file.entry (fault_of first)) result }
{
    if file.bytes.len() > TEXT_LIMIT {
        return Err(Refusal::Broken(too_long(alloc, file.name)?));
    }
    if u32::try_from(pads.inputs.len()).is_err() {
        return Err(Refusal::NoMemory);
    }
    read_stimulus(alloc, file.bytes, Some(pads))
}
