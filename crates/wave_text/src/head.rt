//! The head of a dump: what is shown.

ghost use Rattle.std.specs.Prelude.{◌≡◌, ◌++◌, OnOk};
ghost use Rattle.wave_text.specs.Numbered.{numbered};
ghost use Rattle.wave_text.specs.Waves.{bits, head_text, input_text, kept_text, name_text, output_text, pads_text};
ghost use Rattle.wave_text.specs.Waves.{process_text, stored_text, wires};

use crate::text::push_shown;
use mp_base::{Pad, Pads};
use mp_program::{Def, Process, Program, What};
use std::alloc::AllocError;

fn wires(width: u8) -> u8
    ensures { result ≡ wires width }
{
    if width == 0 { 1 } else { width }
}

fn bits(width: u8, what: What) -> u8
    ensures { result ≡ bits width what }
{
    match what {
        What::Register => width,
        _ => 1,
    }
}

fn push_inputs(text: &mut Vec<u8>, pads: &[Pad]) -> Result<(), AllocError>
    ensures { OnOk result (text.new.items ≡ text.old.items ++ numbered input_text 0 pads.now) }
{
    for (k, pad) in pads.iter().enumerate() {
        push_input(text, k, pad)?;
    }
    Ok(())
}

fn push_input(text: &mut Vec<u8>, number: usize, pad: &Pad) -> Result<(), AllocError>
    ensures { OnOk result (text.new.items ≡ text.old.items ++ input_text number pad.now) }
{
    let wires = wires(pad.width);
    push_shown(text, b"$var wire ", wires, b" i", number, pad.name.bytes())
}

fn push_outputs(text: &mut Vec<u8>, pads: &[Pad]) -> Result<(), AllocError>
    ensures { OnOk result (text.new.items ≡ text.old.items ++ numbered output_text 0 pads.now) }
{
    for (k, pad) in pads.iter().enumerate() {
        push_output(text, k, pad)?;
    }
    Ok(())
}

fn push_output(text: &mut Vec<u8>, number: usize, pad: &Pad) -> Result<(), AllocError>
    ensures { OnOk result (text.new.items ≡ text.old.items ++ output_text number pad.now) }
{
    let wires = wires(pad.width);
    push_shown(text, b"$var wire ", wires, b" o", number, pad.name.bytes())
}

fn push_stored(text: &mut Vec<u8>, width: u8, number: usize, def: &Def) -> Result<(), AllocError>
    ensures { OnOk result (text.new.items ≡ text.old.items ++ stored_text width number def.now) }
{
    if def.what.is_stored() {
        let bits = bits(width, def.what);
        push_shown(text, b"$var reg ", bits, b" d", number, def.name.bytes())?;
    }
    Ok(())
}

fn push_all_stored(text: &mut Vec<u8>, width: u8, defs: &[Def]) -> Result<(), AllocError>
    ensures { OnOk result (text.new.items ≡ text.old.items ++ numbered (stored_text width) 0 defs.now) }
{
    for (k, def) in defs.iter().enumerate() {
        push_stored(text, width, k, def)?;
    }
    Ok(())
}

fn push_processes(text: &mut Vec<u8>, processes: &[Process]) -> Result<(), AllocError>
    ensures { OnOk result (text.new.items ≡ text.old.items ++ numbered process_text 0 processes.now) }
{
    for (k, process) in processes.iter().enumerate() {
        push_process(text, k, process)?;
    }
    Ok(())
}

fn push_process(text: &mut Vec<u8>, number: usize, process: &Process) -> Result<(), AllocError>
    ensures { OnOk result (text.new.items ≡ text.old.items ++ process_text number process.now) }
{
    push_shown(
        text,
        b"$var integer ",
        32,
        b" p",
        number,
        process.name.bytes(),
    )
}

#[tactic(auto, unfolding(crate::specs::Waves::name_text))]
fn push_name(text: &mut Vec<u8>, program: &Program) -> Result<(), AllocError>
    ensures { OnOk result (text.new.items ≡ text.old.items ++ name_text program.now) }
{
    text.extend_from_slice(b"$timescale 1 us $end\n$scope module ")?;
    text.extend_from_slice(program.name.bytes())?;
    text.extend_from_slice(b" $end\n$var wire 1 c clock $end\n")
}

#[tactic(auto, unfolding(crate::specs::Waves::pads_text))]
fn push_pads(text: &mut Vec<u8>, pads: &Pads) -> Result<(), AllocError>
    ensures { OnOk result (text.new.items ≡ text.old.items ++ pads_text pads.now) }
{
    push_inputs(text, pads.inputs.as_slice())?;
    push_outputs(text, pads.outputs.as_slice())
}

#[tactic(auto, unfolding(crate::specs::Waves::kept_text))]
fn push_kept(text: &mut Vec<u8>, program: &Program) -> Result<(), AllocError>
    ensures { OnOk result (text.new.items ≡ text.old.items ++ kept_text program.now) }
{
    push_all_stored(text, program.width, program.defs.as_slice())?;
    push_processes(text, program.processes.as_slice())
}

/// Adds what stands before the first clock: the clock itself, the pads, the registers and flags, and the places of
/// processes, each with its width and its sign.
///
/// # Errors
///
/// Want of memory.
#[tactic(auto, unfolding(crate::specs::Waves::head_text))]
pub fn push_head(text: &mut Vec<u8>, program: &Program, pads: &Pads) -> Result<(), AllocError>
    ensures { OnOk result (text.new.items ≡ text.old.items ++ head_text program.now pads.now) }
{
    push_name(text, program)?;
    push_pads(text, pads)?;
    push_kept(text, program)?;
    text.extend_from_slice(b"$upscope $end\n$enddefinitions $end\n")
}
