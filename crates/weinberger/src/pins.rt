//! Where the segments of a band are marked: in the columns of nets, in those of taps and in those of the phases.

ghost use Rattle.std.specs.Prelude.{◌≡◌, ◌<◌, ◌+◌, ◌^◌, ◌++◌, IfOk, OnOk, map};
ghost use Rattle.std.specs.List.{range_with_len};
ghost use Rattle.array_form.specs.Place.{IsBandOf};
ghost use Rattle.weinberger.specs.Pins.{band_pins, phase_west, tap_pins, west_pins};

use array_form::{Band, Tap};
use band_lists::pins::{At, Pin, push_parts, push_phases, push_west};
use nor_net::{Net, NetId};
use std::alloc::{AllocError, Global};

fn push_taps(pins: &mut Vec<Pin>, taps: &[Tap]) -> Result<(), AllocError>
    ensures { OnOk result (pins.new.items ≡ pins.old.items ++ tap_pins taps.now) }
{
    for tap in taps {
        pins.push(Pin {
            segment: tap.net.0,
            at: At::Column(tap.column),
        })?;
    }
    Ok(())
}

/// The pins of a band, but for those of stubs.
pub(crate) fn pins(alloc: Global, net: &Net, band: &Band) -> Result<Vec<Pin>, AllocError>
    requires { IsBandOf band.now net.now }
    ensures { IfOk result (λ pins. pins.items ≡ band_pins band.now net.now) }
{
    let mut pins = Vec::new(alloc);
    push_parts(&mut pins, net)?;
    push_taps(&mut pins, band.taps.as_slice())?;
    push_phases(&mut pins, net.len(), band.first_column)?;
    Ok(pins)
}

// The pins of the phases there.
fn push_beats(pins: &mut Vec<Pin>, nets: u32) -> Result<(), AllocError>
    requires { nets < 2 ^ 24 }
    ensures { OnOk result (pins.new.items ≡ pins.old.items ++ map (phase_west nets) (range_with_len 0 3)) }
{
    for phase in 0..3 {
        pins.push(Pin {
            segment: nets + phase,
            at: At::Column(1),
        })?;
    }
    Ok(())
}

/// Adds the pins at the west edge, of nets that begin there and of phases.
pub(crate) fn push_edge(pins: &mut Vec<Pin>, nets: u32, west: &[NetId]) -> Result<(), AllocError>
    requires { nets < 2 ^ 24 }
    ensures { OnOk result (pins.new.items ≡ pins.old.items ++ west_pins nets west.now) }
{
    push_west(pins, west)?;
    push_beats(pins, nets)?;
    Ok(())
}
