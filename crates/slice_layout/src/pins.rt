//! Where the segments of a slice are marked.

ghost use Rattle.std.specs.Prelude.{◌≡◌, ◌<◌, ◌++◌, IfOk, OnOk, length, slice_get};
ghost use Rattle.slice_form.specs.Whole.{path_of};
ghost use Rattle.slice_layout.specs.Pins.{cast_pins, chain_pins, lift_pins, program_pins, slice_pins};
ghost use Rattle.slice_layout.specs.Pins.{word_pins};

use crate::entries::pad_entries;
use crate::looking::{
    cast_at, cast_column, casts, chains, lift_at, lift_column, lifts, link_at, program_at, programs,
};
use band_lists::pins::{At, Pin, home_pin, push_parts, push_phases, push_west};
use path_form::DataPath;
use std::alloc::{AllocError, Global};

// A cast is tapped to its net in its column.
fn push_casts(pins: &mut Vec<Pin>, path: &DataPath) -> Result<(), AllocError>
    ensures { OnOk result (pins.new.items ≡ pins.old.items ++ cast_pins (path_of path.now)) }
{
    for i in 0..casts(path) {
        pins.push(Pin {
            segment: cast_at(path, i).slice.0,
            at: At::Column(cast_column(path, i)),
        })?;
    }
    Ok(())
}

// And so is a lift.
fn push_lifts(pins: &mut Vec<Pin>, path: &DataPath) -> Result<(), AllocError>
    ensures { OnOk result (pins.new.items ≡ pins.old.items ++ lift_pins (path_of path.now)) }
{
    for i in 0..lifts(path) {
        pins.push(Pin {
            segment: lift_at(path, i).from.0,
            at: At::Column(lift_column(path, i)),
        })?;
    }
    Ok(())
}

// A chain stands in the column of its end.
fn push_chains(pins: &mut Vec<Pin>, path: &DataPath) -> Result<(), AllocError>
    ensures { OnOk result (pins.new.items ≡ pins.old.items ++ chain_pins (path_of path.now)) }
{
    for i in 0..chains(path) {
        let link = link_at(path, i);
        pins.push(home_pin(link.to, link.to))?;
        pins.push(home_pin(link.start, link.to))?;
    }
    Ok(())
}

// A programmed net has a column of its own.
fn push_programs(pins: &mut Vec<Pin>, path: &DataPath) -> Result<(), AllocError>
    ensures { OnOk result (pins.new.items ≡ pins.old.items ++ program_pins (path_of path.now)) }
{
    for i in 0..programs(path) {
        let net = program_at(path, i).net.0;
        pins.push(home_pin(net, net))?;
    }
    Ok(())
}

/// The pins of a slice, but for those of stubs.
pub(crate) fn pins(alloc: Global, path: &DataPath) -> Result<Vec<Pin>, AllocError>
    ensures { IfOk result (λ pins. pins.items ≡ slice_pins (path_of path.now)) }
{
    let mut pins = Vec::new(alloc);
    push_parts(&mut pins, &path.slices.net)?;
    push_casts(&mut pins, path)?;
    push_lifts(&mut pins, path)?;
    push_chains(&mut pins, path)?;
    push_programs(&mut pins, path)?;
    push_phases(&mut pins, path.slices.net.len(), 1)?;
    Ok(pins)
}

/// Adds the pins of the words of pads, which begin at the west edge.
pub(crate) fn push_words(
    alloc: Global,
    pins: &mut Vec<Pin>,
    path: &DataPath,
) -> Result<(), AllocError>
    ensures { OnOk result (pins.new.items ≡ pins.old.items ++ word_pins (path_of path.now)) }
{
    let words = pad_entries(alloc, path, true)?;
    push_west(pins, words.as_slice())?;
    Ok(())
}
