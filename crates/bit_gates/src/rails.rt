//! Bits as pairs of nets.

ghost use Rattle.std.specs.Prelude.{◌≡◌, ◌<◌, IfOk, All, length};
ghost use Rattle.std.specs.List.{AllZip};
ghost use Rattle.bit_gates.specs.Rails.{BitOf, IsNamed, Named, NegationOf, swapped};

use mp_base::{List, NoMemory};
use nor_net::NetId;
use std::alloc::Global;

/// A bit: the net that has it, and one that has its negation.
#[derive(Clone, Copy)]
pub struct Rails {
    pub bit: NetId,
    pub negation: NetId,
}

impl Rails {
    /// The negation of the bit.
    pub fn swapped(self) -> Rails
        ensures { result ≡ swapped self }
    {
        Rails {
            bit: self.negation,
            negation: self.bit,
        }
    }
}

/// The bit that has a name.
pub fn named(entries: &[Option<Rails>], index: u32) -> Rails
    requires { IsNamed entries.now index }
    ensures { Named entries.now index result }
{
    match entries[index as usize] {
        Some(rails) => rails,
        None => Rails {
            bit: NetId(0),
            negation: NetId(0),
        },
    }
}

/// The nets of some bits.
pub fn bits_of(
    alloc: Global,
    entries: &[Option<Rails>],
    indices: &[u32],
) -> Result<List<NetId>, NoMemory>
    requires { All (IsNamed entries.now) indices.now }
    ensures { IfOk result (λ ids. AllZip (BitOf entries.now) indices.now ids) }
{
    let mut ids = List::new(alloc);
    for index in indices {
        ids.push(named(entries, *index).bit)?;
    }
    Ok(ids)
}

/// The nets of their negations.
pub fn negations_of(
    alloc: Global,
    entries: &[Option<Rails>],
    indices: &[u32],
) -> Result<List<NetId>, NoMemory>
    requires { All (IsNamed entries.now) indices.now }
    ensures { IfOk result (λ ids. AllZip (NegationOf entries.now) indices.now ids) }
{
    let mut ids = List::new(alloc);
    for index in indices {
        ids.push(named(entries, *index).negation)?;
    }
    Ok(ids)
}
