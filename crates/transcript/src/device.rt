//! What is clocked.

ghost use Rattle.std.specs.Prelude.{◌≡◌, ℕ, List, length};
ghost use Rattle.mp_base.specs.declared.value.Trit.{Trit};
ghost use Rattle.mp_base.specs.declared.pad.Pads.{Pads as PadsValue};
ghost use Rattle.stimulus.specs.Bits.{trits_of};
ghost use Rattle.mp_base.specs.PadBits.{Fit};

use mp_base::{Inputs, Pads, TritOutputs};

/// A device with pads. Which states follow on which, with which bits shown at which inputs, is a relation that
/// belongs to the kind of device. The state includes the program or the network that it runs.
pub trait Device {
    ghost pads_of: { Self → PadsValue };

    ghost steps: { Self → List ℕ → List (List Trit) → Self → Type 0 };

    /// The pads.
    fn pads(&self) -> &Pads
        ensures { result.now ≡ pads_of self.now };

    /// Runs one clock. Each input pad has a value within its width.
    fn clock(&mut self, inputs: &Inputs, outputs: &mut TritOutputs)
        requires fit { Fit (pads_of self.old).inputs inputs.now }
        requires as_many { length outputs.old ≡ length (pads_of self.old).outputs }
        ensures pads { pads_of self.new ≡ pads_of self.old }
        ensures as_many { length outputs.new ≡ length (pads_of self.old).outputs }
        ensures steps { steps self.old inputs.now (trits_of (pads_of self.old).outputs outputs.new) self.new };
}
