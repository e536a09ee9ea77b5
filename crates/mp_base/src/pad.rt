//! The pads of a chip, and what they are given and show in one clock.

ghost use Rattle.std.specs.Prelude.{◌≡◌, ◌↔◌, ◌≤◌, ◌++◌, IfOk, IfSome, IsSome, MatchBool, map};
ghost use Rattle.mp_base.specs.PadNames.{ArePadNames, names_of};

use crate::list::List;
use crate::name::Name;
use crate::pad_names::are_pad_names;
use crate::refusal::NoMemory;
use crate::value::TritWord;
use std::alloc::{AllocError, Global};

/// A pad: a word of 1 to 64 bits, or a signal, whose width is 0.
#[derive(Drop)]
pub struct Pad {
    pub name: Name,
    pub width: u8,
    pub ghost narrow: { width ≤ 64 },
}

/// The pads of a chip, in the order of their definitions. Their names are runs of token characters, all
/// differ, and none is the label of a supply or a phase.
#[derive(Drop)]
pub struct Pads {
    pub inputs: List<Pad>,
    pub outputs: List<Pad>,
    pub ghost named: { ArePadNames (names_of inputs outputs (λ pad. pad.name)) },
}

// The names of pads, inputs first.
fn names_of<'a>(
    alloc: Global,
    inputs: &'a [Pad],
    outputs: &'a [Pad],
) -> Result<Vec<&'a [u8]>, AllocError>
    ensures { IfOk result (λ names. map (λ name. name.now) names.items
        ≡ names_of inputs.now outputs.now (λ pad. pad.name)) }
{
    let mut names = Vec::new(alloc);
    for pad in inputs {
        names.push(pad.name.bytes())?;
    }
    for pad in outputs {
        names.push(pad.name.bytes())?;
    }
    Ok(names)
}

// Whether the names of these pads may stand side by side.
fn may_stand(alloc: Global, inputs: &[Pad], outputs: &[Pad]) -> Result<bool, AllocError>
    ensures { let names = names_of inputs.now outputs.now (λ pad. pad.name) in
        IfOk result (λ holds. MatchBool holds (ArePadNames names) (¬ ArePadNames names)) }
{
    let names = names_of(alloc, inputs, outputs)?;
    are_pad_names(alloc, &names)
}

fn copy_of(alloc: Global, pads: &[Pad]) -> Result<List<Pad>, AllocError>
    ensures { IfOk result (λ copy. copy ≡ pads.now) }
{
    let mut copy = List::new(alloc);
    for pad in pads {
        copy.push(Pad {
            name: Name::from_slice(alloc, pad.name.bytes())?,
            width: pad.width,
        })?;
    }
    Ok(copy)
}

impl Pads {
    /// The same pads once more.
    pub fn copy(&self, alloc: Global) -> Result<Pads, NoMemory>
        ensures { IfOk result (λ copy. (copy.inputs ≡ self.now.inputs) × (copy.outputs ≡ self.now.outputs)) }
    {
        let inputs = copy_of(alloc, self.inputs.as_slice())?;
        let outputs = copy_of(alloc, self.outputs.as_slice())?;
        Ok(Pads { inputs, outputs })
    }

    /// These pads, where their names may stand side by side.
    pub fn new(
        alloc: Global,
        inputs: List<Pad>,
        outputs: List<Pad>,
    ) -> Result<Option<Pads>, NoMemory>
        ensures some { IfOk result (λ pads. IsSome pads ↔ ArePadNames (names_of inputs outputs (λ pad. pad.name))) }
        ensures same { IfOk result (λ pads. IfSome pads (λ made. (made.inputs ≡ inputs) × (made.outputs ≡ outputs))) }
    {
        if may_stand(alloc, inputs.as_slice(), outputs.as_slice())? {
            Ok(Some(Pads { inputs, outputs }))
        } else {
            Ok(None)
        }
    }
}

/// One value for each input pad.
pub type Inputs = List<u64>;

/// One value for each output pad.
pub type Outputs = List<u64>;

/// One value for each output pad, of which bits may be unknown.
pub type TritOutputs = List<TritWord>;
