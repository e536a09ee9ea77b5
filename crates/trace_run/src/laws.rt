//! Laws of clocks, traces and transcripts: a call of one does nothing, and tells the caller's proof what it ensures.

ghost use Rattle.trace_run.specs.Laws.{TranscriptExists, TranscriptOnce, TraceExists, TraceOnce, StatesLast, ClocksFit};

use mp_checker::Checked;
use mp_fitting::{environments_fit, next_states_fit, outputs_fit, zero_is_a_state};
use mp_program::laws;

/// A clock of a checked program ends in a state of it, and keeps what fits.
pub fn clocks_fit(checked: &Checked)
    ensures last { StatesLast checked.now.program }
    ensures fit { ClocksFit checked.now.program }
{
    let program = checked.program();
    checked.unbroken();
    zero_is_a_state(program);
    environments_fit(program, checked.order().as_slice());
    outputs_fit(program);
    next_states_fit(program);
    laws::next_states(program);
}

/// Inputs of a checked program have exactly one trace from each of its states.
pub fn traces_exist(checked: &Checked)
    ensures exist { TraceExists checked.now.program }
    ensures once { TraceOnce checked.now.program }
{
    let program = checked.program();
    checked.unbroken();
    zero_is_a_state(program);
    laws::next_states(program);
    laws::one_environment(program, checked.order().as_slice());
    laws::traces_exist(program, checked.order().as_slice());
}

/// A checked program has a transcript along a stimulus from each of its states, exactly one.
pub fn transcripts_exist(checked: &Checked)
    ensures exist { TranscriptExists checked.now.program }
    ensures once { TranscriptOnce checked.now.program }
{
    traces_exist(checked);
}
