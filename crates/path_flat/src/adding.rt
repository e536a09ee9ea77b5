//! What is added to the flat net for one net of the path.

ghost use Rattle.std.specs.Prelude.{◌<◌, ◌≤◌, IfOk, IfSome, length, map, slice_get};
ghost use Rattle.nor_net.specs.Elements.{Low, Nor, spot};
ghost use Rattle.nor_net.specs.Shape.{Fed};
ghost use Rattle.path_flat.specs.Adding.{IsElementAdded, IsReady};
ghost use Rattle.path_flat.specs.Numbers.{number_of};
ghost use Rattle.path_sources.specs.Sources.{element_in, source_element};

use crate::numbers::Numbers;
use crate::places::Place;
use mp_base::{List, NoMemory};
use nor_net::{Net, NetId, NetKind};
use path_sources::Source;
use std::alloc::Global;

// A net set to 0: a gate on a gate without inputs.
fn add_low(alloc: Global, numbers: &Numbers, net: &mut Net) -> Result<NetId, NoMemory>
    requires { IsReady Low (number_of numbers.now) net.old }
    ensures { IfOk result (IsElementAdded Low (number_of numbers.now) net.old net.new) }
{
    let one = net.gate(alloc, &[])?;
    net.gate(alloc, &[one])
}

// An input of the path, in this band of so many slices.
fn add_input(
    alloc: Global,
    width: u8,
    band: u32,
    source: Source,
    numbers: &Numbers,
    net: &mut Net,
) -> Result<NetId, NoMemory>
    requires narrow { width ≤ 64 }
    requires inside { band ≤ width }
    requires ready { IsReady (source_element width band source) (number_of numbers.now) net.old }
    ensures { IfOk result
        (IsElementAdded (source_element width band source) (number_of numbers.now) net.old net.new) }
{
    match source {
        Source::Pad => net.input(),
        Source::Below(from) => {
            if band == 1 {
                add_low(alloc, numbers, net)
            } else {
                Ok(numbers.at(band.saturating_sub(1), from.0))
            }
        }
        Source::Above(from) => {
            if band == width as u32 {
                add_low(alloc, numbers, net)
            } else {
                Ok(numbers.at(band + 1, from.0))
            }
        }
        Source::Bits(bits) => {
            if (bits >> band.saturating_sub(1)) & 1 == 1 {
                net.gate(alloc, &[])
            } else {
                add_low(alloc, numbers, net)
            }
        }
        Source::Control(from) => Ok(numbers.at(0, from.0)),
        Source::Slice(slice, from) => Ok(numbers.at(slice as u32 + 1, from.0)),
    }
}

// A gate of the path, on the numbers of its inputs.
fn add_gate(
    alloc: Global,
    band: u32,
    inputs: &[NetId],
    numbers: &Numbers,
    net: &mut Net,
) -> Result<NetId, NoMemory>
    requires { IsReady (Nor (map (spot band) inputs.now)) (number_of numbers.now) net.old }
    ensures { IfOk result
        (IsElementAdded (Nor (map (spot band) inputs.now)) (number_of numbers.now) net.old net.new) }
{
    let mut numbered = List::new(alloc);
    for input in inputs {
        numbered.push(numbers.at(band, input.0))?;
    }
    net.gate(alloc, numbered.as_slice())
}

/// Adds what stands for the net at a place of the path, a part of the net of its band, and gives its number.
pub(crate) fn add(
    alloc: Global,
    own: &Net,
    width: u8,
    place: Place,
    source: Source,
    numbers: &Numbers,
    net: &mut Net,
) -> Result<NetId, NoMemory>
    requires narrow { width ≤ 64 }
    requires inside { place.band ≤ width }
    requires there { place.net < length own.now }
    requires fed { IfSome (slice_get own.now place.net) Fed }
    requires ready { IfSome (slice_get own.now place.net)
        (λ part. IsReady (element_in width place.band source part) (number_of numbers.now) net.old) }
    ensures { IfOk result (λ id. IfSome (slice_get own.now place.net)
        (λ part. IsElementAdded (element_in width place.band source part) (number_of numbers.now) net.old net.new id)) }
{
    let id = NetId(place.net);
    match own.kind(id) {
        NetKind::Input => add_input(alloc, width, place.band, source, numbers, net),
        NetKind::Gate => add_gate(alloc, place.band, own.gate_inputs(id), numbers, net),
        NetKind::Latch { phase, .. } => net.latch(phase),
    }
}
