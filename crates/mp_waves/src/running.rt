//! A program along a stimulus, and its waves.

ghost use Rattle.std.specs.Prelude.{◌≡◌, ◌≤◌, ◌<◌, ◌+◌, ◌^◌, length, IfOk, IfSome, OnOk};
ghost use Rattle.outside.specs.Outside.{Keeps, bytes_of};
ghost use Rattle.outcome.specs.Halt.{HasReason};
ghost use Rattle.mp_program.specs.Pads.{ArePadsOf};
ghost use Rattle.source_files.specs.Faults.{RunFault};
ghost use Rattle.stimulus.specs.declared.limits.TheConstants.{CLOCK_LIMIT, PAD_LIMIT};
ghost use Rattle.mp_waves.specs.Running.{AreWaves, AreWavesOf, IsRun};

use mp_base::{List, NoMemory};
use mp_program::Program;
use outcome::Halt;
use outside::Depot;
use source_files::{Prepared, prepare};
use source_run::Machine;
use std::alloc::Global;
use stimulus::Stimulus;
use wave_text::{push_end, push_head, push_state, push_values};

// Runs one clock, and adds its text.
fn step(
    alloc: Global,
    text: &mut Vec<u8>,
    given: &Stimulus,
    program: &Program,
    machine: &mut Machine,
    clock: u32,
) -> Result<(), NoMemory>
    requires program { machine.old.program ≡ program.now }
    requires padded { ArePadsOf program.now given.now.pads }
    requires clock { clock < length given.now.clocks }
    requires few { length given.now.pads.inputs < 2 ^ 32 }
    requires run { IsRun program.now given.now clock machine.old.state text.old.items }
    ensures program { OnOk result (machine.new.program ≡ program.now) }
    ensures run { OnOk result (IsRun program.now given.now (clock + 1) machine.new.state text.new.items) }
{
    push_state(alloc, text, program, machine, clock)?;
    let mut values = List::from_vec(vec![in alloc; 0; given.pads.inputs.len()]?);
    let mut shown = List::from_vec(vec![in alloc; 0; given.pads.outputs.len()]?);
    given.inputs(clock, &mut values);
    machine.clock(&values, &mut shown);
    push_values(alloc, text, clock, values.as_slice(), shown.as_slice())?;
    Ok(())
}

/// The waves of a program along a stimulus, from the zero state.
///
/// # Errors
///
/// Want of memory.
fn waves(alloc: Global, made: &Prepared) -> Result<Vec<u8>, NoMemory>
    requires padded { ArePadsOf made.now.checked.program made.now.stimulus.pads }
    requires few_inputs { length made.now.stimulus.pads.inputs ≤ PAD_LIMIT }
    requires few_clocks { length made.now.stimulus.clocks ≤ CLOCK_LIMIT }
    ensures { IfOk result (λ text. AreWaves made.now.checked.program made.now.stimulus text.items) }
{
    let given = &made.stimulus;
    let program = made.checked.program();
    let mut machine = Machine::open(alloc, &made.checked)?;
    let mut text = Vec::new(alloc);
    push_head(&mut text, program, &given.pads)?;
    let count = given.clocks.len() as u32;
    for clock in 0..count {
        step(alloc, &mut text, given, program, &mut machine, clock)?;
    }
    push_end(&mut text, count)?;
    Ok(text)
}

/// The waves of the source in a file along the stimulus in another.
///
/// # Errors
///
/// A read fault, the first broken rule of the source and then of the stimulus, or want of memory.
pub(crate) fn waves_of<D: Depot>(
    alloc: Global,
    depot: &mut D,
    source: &str,
    stimulus: &str,
) -> Result<Vec<u8>, Halt>
    ensures held { Keeps (D.held depot.old) (D.held depot.new) }
    ensures waves { IfOk result (λ text. IfSome (D.held depot.new)
        (λ files. AreWavesOf (bytes_of files source.now) (bytes_of files stimulus.now) text.items)) }
    ensures reason { HasReason (RunFault source.now stimulus.now) (D.held depot.new)
        (D.read_faults depot.old) (D.read_faults depot.new) result }
{
    let made = prepare(alloc, depot, source, stimulus)?;
    Ok(waves(alloc, &made)?)
}
