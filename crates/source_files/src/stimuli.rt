//! Stimuli that are read and judged.

ghost use Rattle.std.specs.Prelude.{◌≡◌, ◌≤◌, None, Some, length, IfOk, IfSome};
ghost use Rattle.outside.specs.Outside.{Keeps, bytes_of};
ghost use Rattle.source_files.specs.declared.limits.TheConstants.{TEXT_LIMIT};
ghost use Rattle.stimulus.specs.declared.limits.TheConstants.{CLOCK_LIMIT, PAD_LIMIT};
ghost use Rattle.mp_program.specs.Pads.{ArePadsOf};
ghost use Rattle.stimulus.specs.Reading.{IsStimulus, OfPads};
ghost use Rattle.mp_base.specs.Refuses.{IsJudged};
ghost use Rattle.outcome.specs.Halt.{HasReason};
ghost use Rattle.source_files.specs.Faults.{PadsFault};

use crate::limits::TEXT_LIMIT;
use mp_base::Refusal;
use mp_checker::Checked;
use mp_rules::laws::few_namings;
use outcome::{Halt, read_text};
use outside::Depot;
use std::alloc::Global;
use stimulus::Stimulus;

// Judges a stimulus for a checked program.
fn check_stimulus(alloc: Global, text: &[u8], checked: &Checked) -> Result<Stimulus, Refusal>
    requires small { length text.now ≤ TEXT_LIMIT }
    ensures judged { IsJudged (OfPads (Some checked.now.pads) text.now) result }
    ensures read { IfOk result (IsStimulus text.now (Some checked.now.pads)) }
    ensures padded { IfOk result (λ given. ArePadsOf checked.now.program given.pads) }
    ensures few_inputs { IfOk result (λ given. length given.pads.inputs ≤ PAD_LIMIT) }
    ensures few_clocks { IfOk result (λ given. length given.clocks ≤ CLOCK_LIMIT) }
{
    checked.unbroken();
    few_namings();
    stimulus::read_stimulus(alloc, text, Some(checked.pads()))
}

/// Reads a stimulus that breaks no rule for a checked program.
///
/// # Errors
///
/// A read fault, the first broken rule of L1 and S, or want of memory.
pub fn read_stimulus<D: Depot>(
    alloc: Global,
    depot: &mut D,
    name: &str,
    checked: &Checked,
) -> Result<Stimulus, Halt>
    ensures held { Keeps (D.held depot.old) (D.held depot.new) }
    ensures padded { IfOk result (λ given. ArePadsOf checked.now.program given.pads) }
    ensures few_inputs { IfOk result (λ given. length given.pads.inputs ≤ PAD_LIMIT) }
    ensures few_clocks { IfOk result (λ given. length given.clocks ≤ CLOCK_LIMIT) }
    ensures read { IfOk result (λ given. IfSome (D.held depot.new)
        (λ files. IsStimulus (bytes_of files name.now) (Some checked.now.pads) given)) }
    ensures reason { HasReason (PadsFault (Some checked.now.pads) name.now) (D.held depot.new)
        (D.read_faults depot.old) (D.read_faults depot.new) result }
    ensures writes { D.write_faults depot.new ≡ D.write_faults depot.old }
{
    let text = read_text(alloc, depot, name, TEXT_LIMIT)?;
    Ok(check_stimulus(alloc, &text, checked)?)
}

// Judges a stimulus that has pads of its own.
fn check_headed(alloc: Global, text: &[u8]) -> Result<Stimulus, Refusal>
    requires small { length text.now ≤ TEXT_LIMIT }
    ensures judged { IsJudged (OfPads None text.now) result }
    ensures read { IfOk result (IsStimulus text.now None) }
{
    stimulus::read_stimulus(alloc, text, None)
}

/// Reads a stimulus with pads of its own that breaks no rule.
///
/// # Errors
///
/// A read fault, the first broken rule of L1 and S, or want of memory.
pub fn read_headed<D: Depot>(alloc: Global, depot: &mut D, name: &str) -> Result<Stimulus, Halt>
    ensures held { Keeps (D.held depot.old) (D.held depot.new) }
    ensures few_inputs { IfOk result (λ given. length given.pads.inputs ≤ PAD_LIMIT) }
    ensures few_clocks { IfOk result (λ given. length given.clocks ≤ CLOCK_LIMIT) }
    ensures read { IfOk result (λ given. IfSome (D.held depot.new)
        (λ files. IsStimulus (bytes_of files name.now) None given)) }
    ensures reason { HasReason (PadsFault None name.now) (D.held depot.new)
        (D.read_faults depot.old) (D.read_faults depot.new) result }
    ensures writes { D.write_faults depot.new ≡ D.write_faults depot.old }
{
    let text = read_text(alloc, depot, name, TEXT_LIMIT)?;
    Ok(check_headed(alloc, &text)?)
}
