//! Nets that are reached from others.

use crate::circuit::{Circuit, Kind};
use crate::lists::{get, put};
use std::alloc::{AllocError, Global};

/// The nets that were met, and those of them whose own takes are still to be met.
#[derive(Drop)]
pub(crate) struct Search {
    pub met: Vec<bool>,
    open: Vec<usize>,
}

impl Search {
    pub fn new(alloc: Global, nets: usize) -> Result<Search, AllocError> {
        Ok(Search {
            met: Vec::from_elem(alloc, false, nets)?,
            open: Vec::new(alloc),
        })
    }

    /// Meets a net, if it wasn't met.
    pub fn meet(&mut self, net: usize) -> Result<(), AllocError> {
        if !get(self.met.as_slice(), net, true) {
            put(self.met.as_mut_slice(), net, true);
            self.open.push(net)?;
        }
        Ok(())
    }

    pub fn meet_all(&mut self, nets: &[usize]) -> Result<(), AllocError> {
        for net in nets {
            self.meet(*net)?;
        }
        Ok(())
    }

    /// The next net to go on from.
    pub fn next(&mut self) -> Option<usize> {
        self.open.pop()
    }
}

// Whether a net is a latch of an input pad, which keeps the pad read where nothing else reads it.
fn is_entry(circuit: &Circuit, net: usize) -> bool {
    match (circuit.kind(net), circuit.takes(net)) {
        (Kind::Latch(_), [data]) => circuit.kind(*data) == Kind::Given,
        _ => false,
    }
}

/// The nets that outputs depend on, and the pads with the latches that take their values.
pub(crate) fn wanted(alloc: Global, circuit: &Circuit) -> Result<Vec<bool>, AllocError> {
    let mut search = Search::new(alloc, circuit.len())?;
    search.meet_all(circuit.outputs.as_slice())?;
    search.meet_all(circuit.inputs.as_slice())?;
    for net in 0..circuit.len() {
        if is_entry(circuit, net) {
            search.meet(net)?;
        }
    }
    for _ in 0..circuit.len() {
        if let Some(net) = search.next() {
            search.meet_all(circuit.takes(net))?;
        }
    }
    Ok(search.met)
}
