//! Where segments are marked: in the columns of nets, in those of taps and in those of the phases.

ghost use Rattle.std.specs.Prelude.{◌≡◌, ◌<◌, ◌+◌, ◌^◌, [], ◌∷◌, ◌++◌, if◌then◌else◌, OnOk, length, map};
ghost use Rattle.std.specs.Prelude.{slice_get};
ghost use Rattle.band_lists.specs.Pins.{pin, net_pins, gate_pins, latch_pins, part_pins, phase_pins};
ghost use Rattle.band_lists.specs.Pins.{stub_pins, west_pin};

use crate::parts::{gate_inputs, kind_at, phase_index};
use nor_net::{Net, NetId, NetKind, Phase};
use std::alloc::AllocError;

/// A column: that of a net, or one that is given.
#[derive(Clone, Copy)]
pub enum At {
    Home(u32),
    Column(u32),
}

/// A segment, by its place among those of a band, and a column in which it is marked.
#[derive(Clone, Copy)]
pub struct Pin {
    pub segment: u32,
    pub at: At,
}

/// A pin of a segment in the column of a net.
pub fn home_pin(segment: u32, net: u32) -> Pin
    ensures { result ≡ pin segment net }
{
    Pin {
        segment,
        at: At::Home(net),
    }
}

fn push_gate(pins: &mut Vec<Pin>, n: u32, inputs: &[NetId]) -> Result<(), AllocError>
    ensures { OnOk result (pins.new.items ≡ pins.old.items ++ gate_pins n inputs.now) }
{
    pins.push(home_pin(n, n))?;
    for input in inputs {
        pins.push(home_pin(input.0, n))?;
    }
    Ok(())
}

fn push_latch(
    pins: &mut Vec<Pin>,
    nets: u32,
    n: u32,
    phase: Phase,
    source: Option<NetId>,
) -> Result<(), AllocError>
    requires { nets + 3 < 2 ^ 32 }
    ensures { OnOk result (pins.new.items ≡ pins.old.items ++ latch_pins nets n phase source) }
{
    let Some(data) = source else {
        return pins.extend_from_slice(&[home_pin(n, n)]);
    };
    pins.extend_from_slice(&[
        home_pin(n, n),
        home_pin(data.0, n),
        home_pin(nets + phase_index(phase), n),
    ])
}

// The pins in the column of a net.
fn push_part(pins: &mut Vec<Pin>, net: &Net, n: u32) -> Result<(), AllocError>
    requires room { length net.now + 3 < 2 ^ 32 }
    requires there { n < length net.now }
    ensures { OnOk result (pins.new.items ≡ pins.old.items ++ part_pins (length net.now) n (slice_get net.now n)) }
{
    match kind_at(net, n) {
        NetKind::Input => Ok(()),
        NetKind::Gate => push_gate(pins, n, gate_inputs(net, n)),
        NetKind::Latch { phase, source } => push_latch(pins, net.len(), n, phase, source),
    }
}

/// The pins of the phases, each in a column of its own from the first on.
pub fn push_phases(pins: &mut Vec<Pin>, nets: u32, first_column: u32) -> Result<(), AllocError>
    requires room { nets + 3 < 2 ^ 32 }
    requires columns { first_column + 3 < 2 ^ 32 }
    ensures { OnOk result (pins.new.items ≡ pins.old.items ++ phase_pins nets first_column) }
{
    for phase in 0..3 {
        pins.push(Pin {
            segment: nets + phase,
            at: At::Column(first_column + phase),
        })?;
    }
    Ok(())
}

/// The pins of gates and latches in their columns: on their own segments, and on those that they read.
pub fn push_parts(pins: &mut Vec<Pin>, net: &Net) -> Result<(), AllocError>
    ensures { OnOk result (pins.new.items ≡ pins.old.items ++ net_pins net.now) }
{
    for n in 0..net.len() {
        push_part(pins, net, n)?;
    }
    Ok(())
}

fn push_stub(pins: &mut Vec<Pin>, n: u32, stub: bool) -> Result<(), AllocError>
    ensures { OnOk result (pins.new.items ≡ pins.old.items ++ (if stub then pin n n ∷ [] else [])) }
{
    if stub {
        pins.push(home_pin(n, n))?;
    }
    Ok(())
}

/// The pins of stubs, each in its own column.
pub fn push_stubs(pins: &mut Vec<Pin>, stubs: &[bool]) -> Result<(), AllocError>
    requires { length stubs.now < 2 ^ 32 }
    ensures { OnOk result (pins.new.items ≡ pins.old.items ++ stub_pins stubs.now) }
{
    for n in 0..stubs.len() {
        push_stub(pins, n as u32, stubs[n])?;
    }
    Ok(())
}

/// The pins of nets whose segments begin at the west edge.
pub fn push_west(pins: &mut Vec<Pin>, west: &[NetId]) -> Result<(), AllocError>
    ensures { OnOk result (pins.new.items ≡ pins.old.items ++ map west_pin west.now) }
{
    for net in west {
        pins.push(Pin {
            segment: net.0,
            at: At::Column(1),
        })?;
    }
    Ok(())
}
