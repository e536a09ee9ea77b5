//! Nets by how they get their values.

use crate::circuit::Kind;
use crate::lists::{get, put};
use nor_net::Phase;
use std::alloc::{AllocError, Global};

// How many nets of one hash are looked at.
const MOST_LOOKS: usize = 64;

/// Nets in lists by hashes: of each hash the net that was entered last, and of each net the one that was entered
/// before. A net's number counts from 1, 0 is none.
#[derive(Drop)]
pub(crate) struct Table {
    last: Vec<usize>,
    before: Vec<usize>,
}

fn phase_number(phase: Phase) -> usize {
    match phase {
        Phase::A => 0,
        Phase::B => 1,
        Phase::C => 2,
    }
}

fn kind_number(kind: Kind) -> usize {
    match kind {
        Kind::Given => 0,
        Kind::Gate => 1,
        Kind::Latch(phase) => phase_number(phase).wrapping_add(2),
        Kind::Cast => 5,
        Kind::Up => 6,
        Kind::Down => 7,
        Kind::Lift(slice) => (slice as usize).wrapping_add(8),
        Kind::Program(bits) => (bits as usize).wrapping_mul(11),
    }
}

// The multiplier is the odd number next to 2^64 over the golden ratio.
fn hash(kind: Kind, takes: &[usize]) -> usize {
    let mut hash = kind_number(kind);
    for take in takes {
        hash = (hash ^ *take).wrapping_mul(0x9e37_79b9_7f4a_7c15);
        hash ^= hash >> 29;
    }
    hash
}

impl Table {
    pub fn new(alloc: Global, nets: usize) -> Result<Table, AllocError> {
        Ok(Table {
            last: Vec::from_elem(alloc, 0, nets)?,
            before: Vec::from_elem(alloc, 0, nets)?,
        })
    }

    // Where the nets of a hash are listed.
    fn slot(&self, kind: Kind, takes: &[usize]) -> usize {
        let slots = self.last.len();
        if slots == 0 {
            0
        } else {
            hash(kind, takes) % slots
        }
    }

    /// Enters a net that gets its value so.
    pub fn enter(&mut self, net: usize, kind: Kind, takes: &[usize]) {
        let slot = self.slot(kind, takes);
        let last = get(self.last.as_slice(), slot, 0);
        put(self.before.as_mut_slice(), net, last);
        put(self.last.as_mut_slice(), slot, net.saturating_add(1));
    }

    /// The nets that may get their values so, the last first.
    pub fn candidates(
        &self,
        alloc: Global,
        kind: Kind,
        takes: &[usize],
    ) -> Result<Vec<usize>, AllocError> {
        let mut candidates = Vec::new(alloc);
        let mut next = get(self.last.as_slice(), self.slot(kind, takes), 0);
        for _ in 0..MOST_LOOKS {
            if next == 0 {
                return Ok(candidates);
            }
            let net = next.saturating_sub(1);
            candidates.push(net)?;
            next = get(self.before.as_slice(), net, 0);
        }
        Ok(candidates)
    }
}
