//! What inputs are given.

ghost use Rattle.std.specs.Prelude.{◌≡◌, ◌<◌, ◌^◌, [], IsTrue, EachIndex, length, slice_index, slice_index_or};
ghost use Rattle.stimulus.specs.Fitting.{are_fitting, value_given};

use mp_base::{Inputs, List, Pads};

/// The value that a clock gives an input, which is an index of the input pads.
#[derive(Clone, Copy, PartialEq, Eq, Debug)]
pub struct Given {
    pub input: u32,
    pub value: u64,
}

/// The pads of a chip, and what each clock gives its inputs. An input that a clock doesn't name is 0.
#[derive(Drop)]
pub struct Stimulus {
    pub pads: Pads,
    pub clocks: List<List<Given>>,
    pub ghost fits: { IsTrue (are_fitting pads.inputs clocks) },
}

// Makes all values 0.
fn clear(values: &mut Inputs)
    requires { length values.old < 2 ^ 32 }
    ensures len { length values.new ≡ length values.old }
    ensures zero { EachIndex values.new (λ i. slice_index values.new i ≡ 0) }
{
    for i in 0..values.len() as u32 {
        values.set(i, 0);
    }
}

impl Stimulus {
    /// What a clock gives the inputs, one value for each. Those that its line doesn't name are 0.
    pub fn inputs(&self, clock: u32, into: &mut Inputs)
        requires clock { clock < length self.now.clocks }
        requires places { length into.old ≡ length self.now.pads.inputs }
        requires few { length into.old < 2 ^ 32 }
        ensures len { length into.new ≡ length into.old }
        ensures values { EachIndex into.new
            (λ i. slice_index into.new i ≡ value_given (slice_index_or self.now.clocks clock []) i) }
    {
        clear(into);
        for given in self.clocks.at(clock).as_slice() {
            into.set(given.input, given.value);
        }
    }
}
