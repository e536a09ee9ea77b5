//! A circuit that adds up what it shows.

ghost use Rattle.std.specs.Prelude.{◌≡◌, ◌+◌, ◌%◌, ◌^◌, ◌<◌, if◌then◌else◌, length, IfOk};
ghost use Rattle.std.specs.List.{AllZip};
ghost use Rattle.mp_base.specs.declared.pad.Pad.{Pad as PadValue};
ghost use Rattle.mp_base.specs.declared.value.Trit.TheVariants.{X};
ghost use Rattle.mp_base.specs.declared.value.TritWord.{TritWord as TritWordValue};
ghost use Rattle.switch_net.specs.Values.{value_at};
ghost use Rattle.switch_net.specs.Breaks.{HasPads};
ghost use Rattle.stimulus.specs.Bits.{trits_of};
ghost use Rattle.mp_base.specs.PadBits.{bit_count};
ghost use Rattle.settled_sum.specs.Sum.{first_number};
ghost use Rattle.made_run.specs.Summing.{IsFresh};

use clock_run::Circuit;
use mp_base::{Inputs, NoMemory, Pads, Refusal, Trit, TritOutputs};
use std::alloc::Global;
use std::marker::Model;
use switch_net::Network;
use transcript::Device;

/// A circuit, and the sum of what its first output showed in all clocks but the first, modulo 2^64.
#[derive(Drop)]
pub(crate) struct Summing<'a> {
    circuit: Circuit<'a>,
    begun: bool,
    sum: u64,
}

impl<'a> Model for Summing<'a> {
    ghost use Rattle.made_run.specs.Summing.{Summed};

    ghost Value = { Summed };

    ghost view = { λ s. record { circuit = s.circuit; begun = s.begun; sum = s.sum } };
}

// The circuit of a network of which it is known that it has these pads.
fn circuit<'a>(alloc: Global, network: Network, pads: &'a Pads) -> Result<Circuit<'a>, NoMemory>
    requires has_pads { HasPads network pads.now }
    ensures network { IfOk result (λ c. c.network ≡ network) }
    ensures pads { IfOk result (λ c. c.pads ≡ pads.now) }
    ensures unknown { IfOk result (λ c. value_at c.values ≡ (λ node. X)) }
{
    match Circuit::open(alloc, network, pads) {
        Ok(circuit) => Ok(circuit),
        Err(Refusal::NoMemory) => Err(NoMemory),
        Err(Refusal::Broken(_)) => unreachable!(),
    }
}

// The number that the first output shows.
fn first_number(pads: &Pads, outputs: &TritOutputs) -> u64
    requires as_many { length outputs.now ≡ length pads.now.outputs }
    requires narrow { AllZip (λ (pad : PadValue) (word : TritWordValue). word.known < 2 ^ bit_count pad.width)
        pads.now.outputs outputs.now }
    ensures { result ≡ first_number (trits_of pads.now.outputs outputs.now) }
{
    let _pads = pads;
    match outputs.as_slice() {
        [word, ..] => word.bits,
        [] => 0,
    }
}

// The sum after a clock that showed a number: the first adds nothing.
fn added(begun: bool, sum: u64, number: u64) -> u64
    ensures { result ≡ (if begun then (sum + number) % 2 ^ 64 else sum) }
{
    if begun { sum.wrapping_add(number) } else { sum }
}

impl<'a> Summing<'a> {
    /// The circuit of a network that has these pads, all of whose nodes are X, which has run no clock.
    ///
    /// # Errors
    ///
    /// Want of memory.
    pub(crate) fn open(
        alloc: Global,
        network: Network,
        pads: &'a Pads,
    ) -> Result<Summing<'a>, NoMemory>
        requires has_pads { HasPads network pads.now }
        ensures network { IfOk result (λ s. s.circuit.network ≡ network) }
        ensures fresh { IfOk result (IsFresh pads.now) }
    {
        let circuit = circuit(alloc, network, pads)?;
        Ok(Summing {
            circuit,
            begun: false,
            sum: 0,
        })
    }

    /// The sum.
    pub(crate) fn sum(&self) -> u64
        ensures { result ≡ self.now.sum }
    {
        self.sum
    }

    /// The value of each node.
    pub(crate) fn values(&self) -> &[Trit]
        ensures same { result.now ≡ self.now.circuit.values }
        ensures sized { length result.now ≡ self.now.circuit.network.nodes }
    {
        self.circuit.values()
    }
}

impl<'a> Device for Summing<'a> {
    ghost use Rattle.made_run.specs.Summing.{SummingSteps};

    ghost pads_of = { λ s. s.circuit.pads };

    ghost steps = { SummingSteps };

    fn pads(&self) -> &Pads {
        self.circuit.pads()
    }

    fn clock(&mut self, inputs: &Inputs, outputs: &mut TritOutputs) {
        self.circuit.clock(inputs, outputs);
        let number = first_number(self.circuit.pads(), outputs);
        self.sum = added(self.begun, self.sum, number);
        self.begun = true;
    }
}
