//! A flat net, clock by clock.

ghost use Rattle.std.specs.Prelude.{◌≡◌, IfOk, length, replicate};

use crate::nets::{given, number_of, settle};
use mp_base::{List, NoMemory, Trit};
use nor_net::Phase;
use path_form::Flattened;
use std::alloc::Global;

/// The values of the nets of a path. The net is the flat net of a path, so all its latches are fed.
#[derive(Drop)]
pub(crate) struct Circuit {
    flat: Flattened,
    values: List<Trit>,
}

impl Circuit {
    /// All values unknown.
    pub fn unknown(alloc: Global, flat: Flattened) -> Result<Circuit, NoMemory>
        ensures flat { IfOk result (λ circuit. circuit.flat ≡ flat) }
        ensures unknown { IfOk result (λ circuit. circuit.values ≡ replicate (length flat.net) Trit.X) }
    {
        let values = List::from_vec(vec![in alloc; Trit::X; flat.net.len() as usize]?);
        Ok(Circuit { flat, values })
    }

    // Goes through these settings.
    fn run(&mut self, given: &List<Trit>, phases: &[Option<Phase>]) -> bool {
        for phase in phases {
            if !settle(&self.flat.net, *phase, given, &mut self.values) {
                return false;
            }
        }
        true
    }

    // One clock under these words of the input pads: the numbers of the output pads, none where one isn't known.
    fn clock(&mut self, alloc: Global, words: &[u64]) -> Result<List<Option<u64>>, NoMemory> {
        let given = given(alloc, &self.flat, words)?;
        let mut shown = List::new(alloc);
        if self.run(&given, &[Some(Phase::C), None]) {
            for row in self.flat.outputs.as_slice() {
                shown.push(number_of(&self.values, row.as_slice()))?;
            }
        }
        self.run(&given, &[Some(Phase::A), None, Some(Phase::B), None]);
        Ok(shown)
    }

    /// The numbers of the output pads clock by clock, none where one isn't known, under these words of the input pads.
    pub fn trace(
        &mut self,
        alloc: Global,
        clocks: &[List<u64>],
    ) -> Result<List<List<Option<u64>>>, NoMemory>
        ensures { IfOk result (λ trace. length trace ≡ length clocks.now) }
    {
        let mut trace = List::new(alloc);
        for words in clocks {
            let shown = self.clock(alloc, words.as_slice())?;
            trace.push(shown)?;
        }
        Ok(trace)
    }
}
