//! A source and a stimulus for it, read and judged.

ghost use Rattle.std.specs.Prelude.{◌≡◌, ◌≤◌, Some, length, IfOk, IfSome};
ghost use Rattle.outside.specs.Outside.{Keeps, bytes_of};
ghost use Rattle.stimulus.specs.declared.limits.TheConstants.{CLOCK_LIMIT, PAD_LIMIT};
ghost use Rattle.mp_program.specs.Pads.{ArePadsOf};
ghost use Rattle.stimulus.specs.Reading.{IsStimulus};
ghost use Rattle.mp_source.specs.Source.{IsSource};
ghost use Rattle.outcome.specs.Halt.{HasReason};
ghost use Rattle.source_files.specs.Faults.{RunFault};

use crate::source::read_source;
use crate::stimuli::read_stimulus;
use mp_checker::Checked;
use outcome::Halt;
use outside::Depot;
use std::alloc::Global;
use stimulus::Stimulus;

/// A program that breaks no rule, and a stimulus for its pads.
#[derive(Drop)]
pub struct Prepared {
    pub checked: Checked,
    pub stimulus: Stimulus,
}

/// Reads and judges the files.
///
/// # Errors
///
/// A read fault, the first broken rule of the source and then of the stimulus, or want of memory.
pub fn prepare<D: Depot>(
    alloc: Global,
    depot: &mut D,
    source: &str,
    stimulus: &str,
) -> Result<Prepared, Halt>
    ensures held { Keeps (D.held depot.old) (D.held depot.new) }
    ensures padded { IfOk result (λ made. ArePadsOf made.checked.program made.stimulus.pads) }
    ensures few_inputs { IfOk result (λ made. length made.stimulus.pads.inputs ≤ PAD_LIMIT) }
    ensures few_clocks { IfOk result (λ made. length made.stimulus.clocks ≤ CLOCK_LIMIT) }
    ensures source { IfOk result (λ made. IfSome (D.held depot.new)
        (λ files. IsSource (bytes_of files source.now) made.checked.program)) }
    ensures stimulus { IfOk result (λ made. IfSome (D.held depot.new)
        (λ files. IsStimulus (bytes_of files stimulus.now) (Some made.checked.pads) made.stimulus)) }
    ensures reason { HasReason (RunFault source.now stimulus.now) (D.held depot.new)
        (D.read_faults depot.old) (D.read_faults depot.new) result }
    ensures writes { D.write_faults depot.new ≡ D.write_faults depot.old }
{
    let checked = read_source(alloc, depot, source)?;
    let stimulus = read_stimulus(alloc, depot, stimulus, &checked)?;
    Ok(Prepared { checked, stimulus })
}
