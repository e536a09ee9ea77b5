//! A device along a stimulus.

ghost use Rattle.std.specs.Prelude.{◌≡◌, ◌<◌, ◌^◌, length};
ghost use Rattle.outside.specs.Outside.{HasCause};
ghost use Rattle.transcript.specs.Running.{HasRoom, PrintsClock, PrintsClocks};

use crate::device::Device;
use crate::room::Room;
use outside::{Failed, Sink};
use stimulus::{Stimulus, line};

// Runs one clock, and prints its line.
fn step<D: Device, O: Sink>(
    device: &mut D,
    given: &Stimulus,
    clock: u32,
    room: &mut Room,
    out: &mut O,
) -> Result<(), Failed>
    requires pads { D.pads_of device.old ≡ given.now.pads }
    requires room { HasRoom given.now.pads room.old }
    requires few { length given.now.pads.inputs < 2 ^ 32 }
    requires clock { clock < length given.now.clocks }
    ensures pads { D.pads_of device.new ≡ given.now.pads }
    ensures room { HasRoom given.now.pads room.new }
    ensures printed { PrintsClock D.steps given.now clock device.old device.new (O.held out.old)
        (O.held out.new) result }
    ensures cause { HasCause (O.faults out.old) (O.faults out.new) result }
{
    given.inputs(clock, &mut room.inputs);
    device.clock(&room.inputs, &mut room.outputs);
    line(clock, &given.pads, &room.outputs, out)
}

/// Runs a device along a stimulus from the state that it is in, and prints the line of each clock as it ends: its
/// number, from 0, and ` NAME=VALUE` for each output pad, where the value is `X` exactly if one of its bits is
/// unknown.
///
/// # Errors
///
/// `Failed` where the sink failed: then the lines before the last clock that ran were printed whole, and its own in
/// part.
pub fn run<D: Device, O: Sink>(
    device: &mut D,
    given: &Stimulus,
    room: &mut Room,
    out: &mut O,
) -> Result<(), Failed>
    requires pads { D.pads_of device.old ≡ given.now.pads }
    requires room { HasRoom given.now.pads room.old }
    requires few_inputs { length given.now.pads.inputs < 2 ^ 32 }
    requires few_clocks { length given.now.clocks < 2 ^ 32 }
    ensures pads { D.pads_of device.new ≡ D.pads_of device.old }
    ensures room { HasRoom given.now.pads room.new }
    ensures printed { PrintsClocks D.steps given.now device.old device.new (O.held out.old) (O.held out.new) result }
    ensures cause { HasCause (O.faults out.old) (O.faults out.new) result }
{
    for clock in 0..given.clocks.len() as u32 {
        step(device, given, clock, room, out)?;
    }
    Ok(())
}
