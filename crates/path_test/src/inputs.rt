//! What inputs become, by what gives them their values.

ghost use Rattle.std.specs.Prelude.{◌≡◌, Some, IsTrue, slice_get};
ghost use Rattle.nor_net.specs.declared.net.Part.TheVariants.{Input};
ghost use Rattle.path_sources.specs.Sources.{source_of};
ghost use Rattle.path_test.specs.Becoming.{InputBecomes, IsHighSource, IsLowSource, Moves, is_source};

use crate::gates::{becomes_at, is_high, is_low, is_net};
use nor_net::{Net, NetId, NetKind};
use path_reduce::{Becomes, Images};
use path_sources::{Source, Sources};

/// Whether an input of the control, or of one of so many slices, may have this source.
pub(crate) fn is_source(width: u8, control: bool, source: Source) -> bool
    ensures { result ≡ is_source width control source }
{
    match source {
        Source::Below(_) => !control,
        Source::Above(_) => !control,
        Source::Slice(slice, _) => slice < width,
        _ => true,
    }
}

// Whether what gives an input its value becomes this.
fn moves(images: &Images, source: Source, to: Source) -> bool
    ensures { IsTrue result → Moves images.now source to }
{
    let control = images.control.as_slice();
    let slices = images.slices.as_slice();
    match (source, to) {
        (Source::Pad, Source::Pad) => true,
        (Source::Below(from), Source::Below(net)) => is_net(becomes_at(slices, from), net),
        (Source::Above(from), Source::Above(net)) => is_net(becomes_at(slices, from), net),
        (Source::Bits(bits), Source::Bits(others)) => bits == others,
        (Source::Control(from), Source::Control(net)) => is_net(becomes_at(control, from), net),
        (Source::Slice(slice, from), Source::Slice(other, net)) => {
            slice == other && is_net(becomes_at(slices, from), net)
        }
        _ => false,
    }
}

// Whether what gives an input its value is always 0.
fn is_low_source(images: &Images, source: Source) -> bool
    ensures { IsTrue result → IsLowSource images.now source }
{
    let control = images.control.as_slice();
    let slices = images.slices.as_slice();
    match source {
        Source::Pad => false,
        Source::Below(from) => is_low(becomes_at(slices, from)),
        Source::Above(from) => is_low(becomes_at(slices, from)),
        Source::Bits(bits) => bits == 0,
        Source::Control(from) => is_low(becomes_at(control, from)),
        Source::Slice(_, from) => is_low(becomes_at(slices, from)),
    }
}

// Whether it is always 1.
fn is_high_source(images: &Images, source: Source) -> bool
    ensures { IsTrue result → IsHighSource images.now source }
{
    match source {
        Source::Control(from) => is_high(becomes_at(images.control.as_slice(), from)),
        Source::Slice(_, from) => is_high(becomes_at(images.slices.as_slice(), from)),
        _ => false,
    }
}

// Whether a net is an input.
fn is_input(net: &Net, id: NetId) -> bool
    ensures { IsTrue result → slice_get net.now id.0 ≡ Some Input }
{
    id.0 < net.len() && net.kind(id) == NetKind::Input
}

/// Whether an input with this source may become this, in this band of the reduced path.
pub(crate) fn input_becomes(
    images: &Images,
    source: Source,
    band: u32,
    net: &Net,
    sources: &Sources,
    becomes: Becomes,
) -> bool
    ensures { IsTrue result → InputBecomes images.now net.now (source_of sources.now band) source becomes }
{
    match becomes {
        Becomes::Net(id) => is_input(net, id) && moves(images, source, sources.source(band, id.0)),
        Becomes::Low => is_low_source(images, source),
        Becomes::High => is_high_source(images, source),
        Becomes::LeftOut => true,
    }
}
