//! The values of a clock.

ghost use Rattle.std.specs.Prelude.{◌≡◌, ◌++◌, ◌*◌, codes, map, slice_index, OnOk};
ghost use Rattle.wave_text.specs.Numbered.{numbered};
ghost use Rattle.wave_text.specs.Waves.{place_value, state_text, stored_value, tagged, value_text, values_text};

use crate::text::{push_tagged, push_value};
use mp_program::{Def, Process, Program};
use source_run::Machine;
use std::alloc::{AllocError, Global};

// What is stored for a definition, or 0 past the last.
fn stored_at(stored: &[u64], number: usize) -> u64
    ensures { result ≡ slice_index stored.now number }
{
    match stored.get(number) {
        Some(value) => *value,
        None => 0,
    }
}

fn push_stored(
    alloc: Global,
    text: &mut Vec<u8>,
    stored: &[u64],
    number: usize,
    def: &Def,
) -> Result<(), AllocError>
    ensures { OnOk result (text.new.items ≡ text.old.items ++ stored_value stored.now number def.now) }
{
    if def.what.is_stored() {
        push_value(alloc, text, b" d", number, stored_at(stored, number))?;
    }
    Ok(())
}

fn push_all_stored(
    alloc: Global,
    text: &mut Vec<u8>,
    stored: &[u64],
    defs: &[Def],
) -> Result<(), AllocError>
    ensures { OnOk result (text.new.items ≡ text.old.items ++ numbered (stored_value stored.now) 0 defs.now) }
{
    for (k, def) in defs.iter().enumerate() {
        push_stored(alloc, text, stored, k, def)?;
    }
    Ok(())
}

fn push_places(
    alloc: Global,
    text: &mut Vec<u8>,
    machine: &Machine,
    processes: &[Process],
) -> Result<(), AllocError>
    ensures { OnOk result (text.new.items
        ≡ text.old.items ++ numbered (place_value (map (λ s. s.place) machine.now.state.seats)) 0 processes.now) }
{
    for (k, _process) in processes.iter().enumerate() {
        push_value(alloc, text, b" p", k, machine.place(k) as u64)?;
    }
    Ok(())
}

/// Adds the beginning of a clock: its time, what is stored in it, and the places of the processes. The machine is one of
/// the program.
///
/// # Errors
///
/// Want of memory.
#[tactic(auto, unfolding(crate::specs::Waves::state_text))]
pub fn push_state(
    alloc: Global,
    text: &mut Vec<u8>,
    program: &Program,
    machine: &Machine,
    clock: u32,
) -> Result<(), AllocError>
    ensures { OnOk result (text.new.items ≡ text.old.items
        ++ state_text program.now clock machine.now.state.stored (map (λ s. s.place) machine.now.state.seats)) }
{
    push_tagged(text, b"#", 2 * clock as u64)?;
    text.extend_from_slice(b"\n1c\n")?;
    push_all_stored(alloc, text, machine.stored(), program.defs.as_slice())?;
    push_places(alloc, text, machine, program.processes.as_slice())
}

fn push_all(
    alloc: Global,
    text: &mut Vec<u8>,
    letter: &[u8],
    values: &[u64],
) -> Result<(), AllocError>
    ensures { OnOk result (text.new.items ≡ text.old.items ++ numbered (value_text letter.now) 0 values.now) }
{
    for (k, value) in values.iter().enumerate() {
        push_value(alloc, text, letter, k, *value)?;
    }
    Ok(())
}

/// Adds the end of a clock: what the inputs are given, and what the outputs show.
///
/// # Errors
///
/// Want of memory.
#[tactic(auto, unfolding(crate::specs::Waves::values_text))]
pub fn push_values(
    alloc: Global,
    text: &mut Vec<u8>,
    clock: u32,
    inputs: &[u64],
    shown: &[u64],
) -> Result<(), AllocError>
    ensures { OnOk result (text.new.items ≡ text.old.items ++ values_text clock inputs.now shown.now) }
{
    push_all(alloc, text, b" i", inputs)?;
    push_all(alloc, text, b" o", shown)?;
    push_tagged(text, b"#", 2 * clock as u64 + 1)?;
    text.extend_from_slice(b"\n0c\n")
}

/// Adds the time of the end, after so many clocks.
///
/// # Errors
///
/// Want of memory.
pub fn push_end(text: &mut Vec<u8>, clocks: u32) -> Result<(), AllocError>
    ensures { OnOk result (text.new.items ≡ text.old.items ++ (tagged (codes "#") (2 * clocks) ++ codes "\n")) }
{
    push_tagged(text, b"#", 2 * clocks as u64)?;
    text.extend_from_slice(b"\n")
}
