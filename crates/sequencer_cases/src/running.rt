//! Runs of programs beside their transfers.

ghost use Rattle.mp_program.specs.Pads.{FitsPads, input_pads};

use crate::dice::Dice;
use crate::inputs::{inputs_of, zeros};
use crate::stepper::{shows, step};
use mp_base::{List, NoMemory};
use mp_checker::Checked;
use mp_source::check_source;
use process_sequencer::sequence;
use rtl_check::is_sound;
use rtl_form::Rtl;
use source_run::Machine;
use std::alloc::Global;

/// The clocks of a program.
const CLOCKS: u32 = 40;

const MOST_BYTES: usize = 1_048_576;

/// Whether transfers are sound, and in how many of some clocks they show what the program shows.
#[derive(Drop)]
pub(crate) struct Run {
    pub sound: bool,
    pub clocks: u32,
    pub same: u32,
}

// Whether the transfers show these outputs in a clock with these inputs.
fn shows_same(
    alloc: Global,
    rtl: &Rtl,
    stored: &mut [u64],
    inputs: &[u64],
    outputs: &[u64],
) -> Result<bool, NoMemory> {
    let cells = step(alloc, rtl, stored, inputs)?;
    Ok(shows(rtl, &cells, outputs))
}

// The same of a clock that the program runs with these inputs.
fn agree_on(
    alloc: Global,
    machine: &mut Machine<'_>,
    rtl: &Rtl,
    stored: &mut [u64],
    inputs: &List<u64>,
) -> Result<bool, NoMemory>
    requires { FitsPads (input_pads machine.old.program) inputs.now }
{
    let pads = machine.pads();
    let mut outputs = zeros(alloc, &pads.outputs)?;
    machine.clock(inputs, &mut outputs);
    shows_same(alloc, rtl, stored, inputs.as_slice(), outputs.as_slice())
}

// The same of a clock with given inputs, or with others where none are given.
fn agree(
    alloc: Global,
    machine: &mut Machine<'_>,
    rtl: &Rtl,
    stored: &mut [u64],
    given: Option<&str>,
    dice: &mut Dice,
) -> Result<bool, NoMemory> {
    let pads = machine.pads();
    let inputs = inputs_of(alloc, &pads.inputs, given, dice)?;
    agree_on(alloc, machine, rtl, stored, &inputs)
}

// In how many clocks they do: first those whose inputs are given, then others.
fn count_agreed(
    alloc: Global,
    machine: &mut Machine<'_>,
    rtl: &Rtl,
    stored: &mut [u64],
    given: &str,
    dice: &mut Dice,
) -> Result<u32, NoMemory> {
    let mut clocks = given.split(',');
    let mut same = 0u32;
    for _ in 0..CLOCKS {
        let given = clocks.next().filter(|clock| !clock.is_empty());
        if agree(alloc, machine, rtl, stored, given, dice)? {
            same = same.saturating_add(1);
        }
    }
    Ok(same)
}

// The same from the start of a program and of its transfers.
fn agreed(
    alloc: Global,
    checked: &Checked,
    rtl: &Rtl,
    given: &str,
    dice: &mut Dice,
) -> Result<u32, NoMemory> {
    let mut stored = vec![in alloc; 0; rtl.cells.len()]?;
    let mut machine = Machine::open(alloc, checked)?;
    count_agreed(alloc, &mut machine, rtl, &mut stored, given, dice)
}

// The run of a program beside its transfers, where there is memory.
fn run_beside(alloc: Global, checked: &Checked, rtl: &Rtl, given: &str) -> Option<Run> {
    let mut dice = Dice::new(1);
    let same = agreed(alloc, checked, rtl, given, &mut dice).ok()?;
    Some(Run {
        sound: is_sound(rtl),
        clocks: CLOCKS,
        same,
    })
}

// The run of a program, where there is memory.
fn run_of(alloc: Global, checked: &Checked, given: &str) -> Option<Run> {
    let rtl = sequence(alloc, checked).ok()?;
    run_beside(alloc, checked, &rtl, given)
}

// The program of a source that is not too long and breaks no rule.
fn program_of(alloc: Global, source: &[u8]) -> Option<Checked> {
    if source.len() > MOST_BYTES {
        return None;
    }
    check_source(alloc, source).ok()
}

/// The run of a source, where it breaks no rule and there is memory.
pub(crate) fn run_of_source(alloc: Global, source: &[u8], given: &str) -> Option<Run> {
    let checked = program_of(alloc, source)?;
    run_of(alloc, &checked, given)
}
