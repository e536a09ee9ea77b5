//! The memory of a run.

ghost use Rattle.std.specs.Prelude.{IfOk};
ghost use Rattle.transcript.specs.Running.{HasRoom};

use mp_base::{Inputs, List, NoMemory, Pads, TritOutputs, TritWord};
use std::alloc::Global;

/// Room for what one clock gives and shows.
#[derive(Drop)]
pub struct Room {
    pub inputs: Inputs,
    pub outputs: TritOutputs,
}

impl Room {
    /// Room for these pads.
    ///
    /// # Errors
    ///
    /// Want of memory.
    pub fn new(alloc: Global, pads: &Pads) -> Result<Room, NoMemory>
        ensures { IfOk result (HasRoom pads.now) }
    {
        let blank = TritWord { known: 0, bits: 0 };
        let inputs = vec![in alloc; 0; pads.inputs.len()]?;
        let outputs = vec![in alloc; blank; pads.outputs.len()]?;
        Ok(Room {
            inputs: List::from_vec(inputs),
            outputs: List::from_vec(outputs),
        })
    }
}
