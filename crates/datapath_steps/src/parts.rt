//! Small groups of parts, each added at the end of a net.

ghost use Rattle.std.specs.Prelude.{◌≡◌, ◌+◌, ◌<◌, ◌++◌, ◌∷◌, [], Some, None, All, IfOk, length, slice_get};
ghost use Rattle.nor_net.specs.Shape.{gate_inputs, net_limit, IsAdded, MayFeed};
ghost use Rattle.nor_net.specs.declared.net.Phase.TheVariants.{B, C};
ghost use Rattle.nor_net.specs.declared.net.Part.TheVariants.{Gate, Input, Latch};
ghost use Rattle.datapath_making.specs.Steps.{IsPortAdded, IsSlaveAdded};

use mp_base::NoMemory;
use nor_net::{Net, NetId, Phase};
use std::alloc::Global;

/// A latch that is fed.
pub fn add_latch(net: &mut Net, phase: Phase, source: NetId) -> Result<NetId, NoMemory>
    requires room { length net.old + 1 < net_limit }
    requires source { MayFeed phase (slice_get net.old source.0) }
    ensures { IfOk result (IsAdded net.old (Latch phase (Some source)) net.new) }
{
    let id = net.latch(phase)?;
    net.feed(id, source);
    Ok(id)
}

/// The net of an input pad, and the latch on it.
#[derive(Clone, Copy, PartialEq, Eq, Debug)]
pub struct Port {
    pub pad: NetId,
    pub latch: NetId,
}

/// An input, and a latch on it.
pub fn add_port(net: &mut Net) -> Result<Port, NoMemory>
    requires { length net.old + 2 < net_limit }
    ensures { IfOk result (λ p. IsPortAdded net.old net.new p.pad p.latch) }
{
    let pad = net.input()?;
    let latch = add_latch(net, Phase::C, pad)?;
    Ok(Port { pad, latch })
}

/// A slave that isn't fed yet, and a gate on it.
pub fn add_slave(alloc: Global, net: &mut Net) -> Result<NetId, NoMemory>
    requires room { length net.old + 2 < net_limit }
    requires inputs_room { gate_inputs net.old + 1 < net_limit }
    ensures { IfOk result (IsSlaveAdded net.old net.new) }
{
    let slave = net.latch(Phase::B)?;
    let word = net.gate(alloc, &[slave])?;
    Ok(word)
}
