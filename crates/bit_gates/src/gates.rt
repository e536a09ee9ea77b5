//! Small groups of parts, each added at the end of a net.

ghost use Rattle.std.specs.Prelude.{◌≡◌, ◌+◌, ◌<◌, Some, All, IfOk, length, slice_get};
ghost use Rattle.nor_net.specs.Shape.{gate_inputs, net_limit, IsAdded, MayFeed};
ghost use Rattle.nor_net.specs.declared.net.Part.TheVariants.{Latch};
ghost use Rattle.bit_gates.specs.Adding.{IsEntryPair, IsExclusive, IsPair, IsPort, IsSlave};
ghost use Rattle.bit_gates.specs.Rails.{AreBelow};

use crate::rails::Rails;
use mp_base::NoMemory;
use nor_net::{Net, NetId, Phase};
use std::alloc::Global;

/// The NOR of some nets, and its negation.
pub fn add_pair(alloc: Global, net: &mut Net, inputs: &[NetId]) -> Result<Rails, NoMemory>
    requires room { length net.old + 2 < net_limit }
    requires inputs_room { gate_inputs net.old + length inputs.now + 1 < net_limit }
    requires inputs { All (λ j. j.0 < length net.old) inputs.now }
    ensures { IfOk result (IsPair inputs.now net.old net.new) }
{
    let bit = net.gate(alloc, inputs)?;
    let negation = net.gate(alloc, &[bit])?;
    Ok(Rails { bit, negation })
}

/// An input, and its negation.
pub fn add_entry(alloc: Global, net: &mut Net) -> Result<Rails, NoMemory>
    requires room { length net.old + 2 < net_limit }
    requires inputs_room { gate_inputs net.old + 1 < net_limit }
    ensures { IfOk result (IsEntryPair net.old net.new) }
{
    let bit = net.input()?;
    let negation = net.gate(alloc, &[bit])?;
    Ok(Rails { bit, negation })
}

/// The exclusive OR of two bits, and its negation.
pub fn add_exclusive(alloc: Global, net: &mut Net, a: Rails, b: Rails) -> Result<Rails, NoMemory>
    requires room { length net.old + 4 < net_limit }
    requires inputs_room { gate_inputs net.old + 7 < net_limit }
    requires a_in { AreBelow (length net.old) a }
    requires b_in { AreBelow (length net.old) b }
    ensures { IfOk result (IsExclusive a b net.old net.new) }
{
    let none = net.gate(alloc, &[a.bit, b.bit])?;
    let both = net.gate(alloc, &[a.negation, b.negation])?;
    add_pair(alloc, net, &[none, both])
}

/// The net of an input pad, and the bit that its latch has.
#[derive(Clone, Copy)]
pub struct Port {
    pub pad: NetId,
    pub rails: Rails,
}

/// A latch that is fed.
pub fn add_latch(net: &mut Net, phase: Phase, source: NetId) -> Result<NetId, NoMemory>
    requires room { length net.old + 1 < net_limit }
    requires source { MayFeed phase (slice_get net.old source.0) }
    ensures { IfOk result (λ id. IsAdded net.old (Latch phase (Some source)) net.new id) }
{
    let id = net.latch(phase)?;
    net.feed(id, source);
    Ok(id)
}

/// An input, its latch and the negation of that.
pub fn add_port(alloc: Global, net: &mut Net) -> Result<Port, NoMemory>
    requires room { length net.old + 3 < net_limit }
    requires inputs_room { gate_inputs net.old + 1 < net_limit }
    ensures { IfOk result (λ p. IsPort net.old net.new p.pad p.rails) }
{
    let pad = net.input()?;
    let bit = add_latch(net, Phase::C, pad)?;
    let negation = net.gate(alloc, &[bit])?;
    Ok(Port {
        pad,
        rails: Rails { bit, negation },
    })
}

/// A slave that isn't fed yet, which has the negation of a stored bit, and the bit.
pub fn add_slave(alloc: Global, net: &mut Net) -> Result<Rails, NoMemory>
    requires room { length net.old + 2 < net_limit }
    requires inputs_room { gate_inputs net.old + 1 < net_limit }
    ensures { IfOk result (IsSlave net.old net.new) }
{
    let negation = net.latch(Phase::B)?;
    let bit = net.gate(alloc, &[negation])?;
    Ok(Rails { bit, negation })
}
