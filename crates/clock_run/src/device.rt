//! A circuit as a device.

use crate::circuit::Circuit;
use mp_base::{Inputs, Pads, TritOutputs};
use transcript::Device;

impl<'a> Device for Circuit<'a> {
    ghost use Rattle.clock_run.specs.Device.{CircuitSteps};

    ghost pads_of = { λ c. c.pads };

    ghost steps = { CircuitSteps };

    fn pads(&self) -> &Pads {
        Circuit::pads(self)
    }

    fn clock(&mut self, inputs: &Inputs, outputs: &mut TritOutputs) {
        Circuit::clock(self, inputs, outputs)
    }
}
