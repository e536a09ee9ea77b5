//! What is made of a number, read: it breaks no rule.

ghost use Rattle.std.specs.Prelude.{◌≡◌, ◌≤◌, None, Some, length, IfOk};
ghost use Rattle.stimulus.specs.declared.limits.TheConstants.{PAD_LIMIT};
ghost use Rattle.mp_program.specs.Pads.{ArePadsOf};
ghost use Rattle.stimulus.specs.declared.given.Stimulus as spec;
ghost use Rattle.stimulus.specs.Inputs.{inputs_of};
ghost use Rattle.stimulus.specs.Reading.{IsStimulus};
ghost use Rattle.mp_source.specs.Source.{IsSource, OfSource};
ghost use Rattle.program_maker.specs.Texts.{source_text, stimulus_text};
ghost use Rattle.settled_sum.specs.Laws.{SettlesBehindFirst};

use made_source::laws::{made_sources_are_short, made_sources_are_sources};
use made_stimulus::laws::{made_stimuli_are_short, made_stimuli_are_stimuli};
use mp_base::{NoMemory, Refusal};
use mp_checker::Checked;
use mp_source::check_source;
use mp_source::laws::{one_source, one_verdict};
use program_maker::make;
use std::alloc::Global;
use stimulus::laws::{one_first_rule, one_stimulus};
use stimulus::{Stimulus, read_stimulus};

/// The checked program of a made source, and the stimulus that is made with it.
#[derive(Drop)]
pub struct Ready {
    pub checked: Checked,
    pub stimulus: Stimulus,
}

// The program of a source of which it is known that it breaks no rule.
fn unbroken_source(alloc: Global, text: &[u8]) -> Result<Checked, NoMemory>
    requires short { length text.now ≤ 2000 }
    requires whole { OfSource text.now None }
    ensures { IfOk result (λ checked. IsSource text.now checked.program) }
{
    one_verdict();
    match check_source(alloc, text) {
        Ok(checked) => Ok(checked),
        Err(Refusal::NoMemory) => Err(NoMemory),
        Err(Refusal::Broken(_)) => unreachable!(),
    }
}

// The stimulus of a text of which it is known that it breaks no rule.
fn unbroken_stimulus(alloc: Global, text: &[u8], checked: &Checked) -> Result<Stimulus, NoMemory>
    requires short { length text.now ≤ 2000 }
    requires few { length checked.now.pads.inputs ≤ PAD_LIMIT }
    requires whole { (given : spec.Stimulus) × IsStimulus text.now (Some checked.now.pads) given }
    ensures { IfOk result (IsStimulus text.now (Some checked.now.pads)) }
{
    one_first_rule();
    match read_stimulus(alloc, text, Some(checked.pads())) {
        Ok(stimulus) => Ok(stimulus),
        Err(Refusal::NoMemory) => Err(NoMemory),
        Err(Refusal::Broken(_)) => unreachable!(),
    }
}

/// Makes a source and a stimulus of a number, and reads them: they break no rule.
///
/// # Errors
///
/// Want of memory.
pub fn make_ready(alloc: Global, seed: u64) -> Result<Ready, NoMemory>
    ensures source { IfOk result (λ ready. IsSource (source_text seed) ready.checked.program) }
    ensures stimulus { IfOk result (λ ready. IsStimulus (stimulus_text seed) (Some ready.checked.pads) ready.stimulus) }
    ensures known { IfOk result (λ ready. ArePadsOf ready.checked.program ready.checked.pads) }
    ensures padded { IfOk result (λ ready. ArePadsOf ready.checked.program ready.stimulus.pads) }
    ensures few_inputs { IfOk result (λ ready. length ready.stimulus.pads.inputs ≤ PAD_LIMIT) }
    ensures one_output { IfOk result (λ ready. length ready.stimulus.pads.outputs ≡ 1) }
    ensures clocks { IfOk result (λ ready. length ready.stimulus.clocks ≡ 65) }
    ensures settled { IfOk result (λ ready. SettlesBehindFirst ready.checked.program (inputs_of ready.stimulus)) }
{
    made_sources_are_sources();
    made_sources_are_short();
    made_stimuli_are_stimuli();
    made_stimuli_are_short();
    one_source();
    one_stimulus();
    let made = make(alloc, seed)?;
    let checked = unbroken_source(alloc, made.source.bytes())?;
    let _ = checked.pads();
    let stimulus = unbroken_stimulus(alloc, made.stimulus.bytes(), &checked)?;
    Ok(Ready { checked, stimulus })
}
