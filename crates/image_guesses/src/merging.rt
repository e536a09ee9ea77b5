//! Which nets are always 0 or 1, and which are always as another one.

use crate::circuit::{Circuit, Kind};
use crate::fixed::Fixed;
use crate::lists::{get, put};
use crate::table::Table;
use std::alloc::{AllocError, Global};

/// What is known of a net: that it is always 0 or 1, or the net that it is always as, which may be itself; or nothing
/// so far.
#[derive(Clone, Copy, PartialEq, Eq)]
pub(crate) enum Known {
    Later,
    Low,
    High,
    Net(usize),
}

/// What is known of each net, and from which nets each takes its value that is kept.
#[derive(Drop)]
pub(crate) struct Merging {
    pub known: Vec<Known>,
    takes: Vec<Vec<usize>>,
    table: Table,
    outputs: Vec<bool>,
    // Pads that another output must not be one with.
    taken: Vec<bool>,
}

fn flags(alloc: Global, nets: &[usize], count: usize) -> Result<Vec<bool>, AllocError> {
    let mut flags = Vec::from_elem(alloc, false, count)?;
    for net in nets {
        put(flags.as_mut_slice(), *net, true);
    }
    Ok(flags)
}

impl Merging {
    /// Goes through the nets that are wanted.
    pub fn of(
        alloc: Global,
        circuit: &Circuit,
        wanted: &[bool],
        fixed: &Fixed,
    ) -> Result<Merging, AllocError> {
        let mut takes = Vec::new(alloc);
        for _ in 0..circuit.len() {
            takes.push(Vec::new(alloc))?;
        }
        let mut merging = Merging {
            known: Vec::from_elem(alloc, Known::Later, circuit.len())?,
            takes,
            table: Table::new(alloc, circuit.len())?,
            outputs: flags(alloc, circuit.outputs.as_slice(), circuit.len())?,
            taken: flags(alloc, circuit.inputs.as_slice(), circuit.len())?,
        };
        for net in circuit.order.as_slice() {
            if get(wanted, *net, false) {
                let known = merging.find(alloc, circuit, fixed, *net)?;
                put(merging.known.as_mut_slice(), *net, known);
            }
        }
        Ok(merging)
    }

    /// What is known of a net.
    pub fn known(&self, net: usize) -> Known {
        get(self.known.as_slice(), net, Known::Later)
    }

    /// Whether a net is kept.
    pub fn is_kept(&self, net: usize) -> bool {
        self.known(net) == Known::Net(net)
    }

    /// The nets that a gate takes its value from, if it is kept.
    pub fn takes(&self, net: usize) -> &[usize] {
        if net < self.takes.len() {
            self.takes[net].as_slice()
        } else {
            &[]
        }
    }

    fn find(
        &mut self,
        alloc: Global,
        circuit: &Circuit,
        fixed: &Fixed,
        net: usize,
    ) -> Result<Known, AllocError> {
        if let Some(constant) = self.constant(circuit, net)
            && !get(fixed.nets.as_slice(), net, false)
        {
            return Ok(constant);
        }
        let same = if circuit.kind(net) == Kind::Given || self.takes_later(circuit, net) {
            net
        } else {
            self.same(alloc, circuit, fixed, net)?
        };
        if get(self.outputs.as_slice(), net, false) {
            put(self.taken.as_mut_slice(), same, true);
        }
        Ok(Known::Net(same))
    }

    fn takes_later(&self, circuit: &Circuit, net: usize) -> bool {
        circuit
            .takes(net)
            .iter()
            .any(|take| self.known(*take) == Known::Later)
    }

    // The value of a net that is always 0 or 1.
    fn constant(&self, circuit: &Circuit, net: usize) -> Option<Known> {
        let takes = circuit.takes(net);
        match circuit.kind(net) {
            Kind::Gate => self.gate_constant(takes),
            Kind::Program(0) => Some(Known::Low),
            Kind::Cast | Kind::Lift(_) | Kind::Up | Kind::Down => match takes {
                [take] => match self.known(*take) {
                    Known::Low => Some(Known::Low),
                    Known::High => Some(Known::High),
                    _ => None,
                },
                _ => None,
            },
            _ => None,
        }
    }

    fn gate_constant(&self, inputs: &[usize]) -> Option<Known> {
        let mut all_low = true;
        for input in inputs {
            match self.known(*input) {
                Known::High => return Some(Known::Low),
                Known::Low => {}
                _ => all_low = false,
            }
        }
        if all_low { Some(Known::High) } else { None }
    }

    // What a net takes its value from, in order and each once. What is always 0 adds nothing to a gate.
    fn kept_takes(
        &self,
        alloc: Global,
        circuit: &Circuit,
        net: usize,
    ) -> Result<Vec<usize>, AllocError> {
        let mut all = Vec::new(alloc);
        for take in circuit.takes(net) {
            if let Known::Net(same) = self.known(*take) {
                all.push(same)?;
            }
        }
        all.sort()?;
        all.dedup();
        Ok(all)
    }

    // The net that a net is always as.
    fn same(
        &mut self,
        alloc: Global,
        circuit: &Circuit,
        fixed: &Fixed,
        net: usize,
    ) -> Result<usize, AllocError> {
        let takes = self.kept_takes(alloc, circuit, net)?;
        if let Some(inverted) = self.inverted_twice(circuit, takes.as_slice(), net)
            && self.may_be(net, inverted)
            && (circuit.kind(inverted) == Kind::Gate || !get(fixed.gates.as_slice(), net, false))
        {
            return Ok(inverted);
        }
        let equal = self.equal(alloc, circuit, takes.as_slice(), net)?;
        if let Some(equal) = equal
            && self.may_be(net, equal)
        {
            return Ok(equal);
        }
        // A gate without inputs that was not to become 1 stays alone.
        if equal.is_none() && (!takes.is_empty() || circuit.kind(net) != Kind::Gate) {
            self.table.enter(net, circuit.kind(net), takes.as_slice());
        }
        if net < self.takes.len() {
            self.takes[net] = takes;
        }
        Ok(net)
    }

    // Outputs stay apart, from each other and from inputs.
    fn may_be(&self, net: usize, same: usize) -> bool {
        !get(self.outputs.as_slice(), net, false) || !get(self.taken.as_slice(), same, true)
    }

    // What a gate inverts that has one input, which inverts it too.
    fn inverted_twice(&self, circuit: &Circuit, takes: &[usize], net: usize) -> Option<usize> {
        match takes {
            [input] if circuit.kind(net) == Kind::Gate && circuit.kind(*input) == Kind::Gate => {
                match self.takes(*input) {
                    [inverted] => Some(*inverted),
                    _ => None,
                }
            }
            _ => None,
        }
    }

    // A net that gets its value in the same way.
    fn equal(
        &self,
        alloc: Global,
        circuit: &Circuit,
        takes: &[usize],
        net: usize,
    ) -> Result<Option<usize>, AllocError> {
        let kind = circuit.kind(net);
        for other in self.table.candidates(alloc, kind, takes)? {
            if circuit.kind(other) == kind && self.takes(other) == takes {
                return Ok(Some(other));
            }
        }
        Ok(None)
    }
}
