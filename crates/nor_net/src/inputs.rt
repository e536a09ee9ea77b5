//! The inputs of a gate.

ghost use Rattle.std.specs.Prelude.{◌≡◌, IfOk};

use crate::net::NetId;
use smallvec::SmallVec;
use std::alloc::{AllocError, Global};
use std::marker::Model;

/// The inputs of a gate, in order. Those of most gates are at most four, and are kept in the value itself.
#[derive(Drop)]
pub struct Inputs {
    nets: SmallVec<NetId, 4>,
}

impl Model for Inputs {
    ghost use Rattle.nor_net.specs.declared.net.NetId.{NetId};
    ghost use Rattle.std.specs.Prelude.{List};

    ghost Value = { List NetId };

    ghost view = { λ s. s.nets.items };
}

impl Inputs {
    pub(crate) fn of(alloc: Global, nets: &[NetId]) -> Result<Inputs, AllocError>
        ensures { IfOk result (λ inputs. inputs ≡ nets.now) }
    {
        let nets = SmallVec::from_slice(alloc, nets)?;
        Ok(Inputs { nets })
    }

    pub fn as_slice(&self) -> &[NetId]
        ensures { result.now ≡ self.now }
    {
        self.nets.as_slice()
    }
}
