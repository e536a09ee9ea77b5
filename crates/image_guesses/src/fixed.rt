//! Nets that can't become just anything.

use crate::circuit::{Circuit, Kind};
use crate::lists::{get, put};
use crate::merging::Known;
use crate::search::Search;
use std::alloc::{AllocError, Global};

/// The nets that must not become 0 or 1, since a latch, a chain or an output wants a net there; and the gates that
/// must become gates.
#[derive(Drop)]
pub(crate) struct Fixed {
    pub nets: Vec<bool>,
    pub gates: Vec<bool>,
}

impl Fixed {
    /// None.
    pub fn none(alloc: Global, circuit: &Circuit) -> Result<Fixed, AllocError> {
        Ok(Fixed {
            nets: Vec::from_elem(alloc, false, circuit.len())?,
            gates: Vec::from_elem(alloc, false, circuit.len())?,
        })
    }

    /// Of the nets that are wanted the data of latches, what chains come from and outputs; and what makes these 0,
    /// where it is known what is constant.
    pub fn of(
        alloc: Global,
        circuit: &Circuit,
        wanted: &[bool],
        known: &[Known],
    ) -> Result<Fixed, AllocError> {
        let gates = gates(alloc, circuit, wanted)?;
        let mut search = Search::new(alloc, circuit.len())?;
        search.meet_all(circuit.outputs.as_slice())?;
        for net in 0..circuit.len() {
            if get(wanted, net, false) && takes_nets(circuit, known, net) {
                search.meet_all(circuit.takes(net))?;
            }
        }
        for _ in 0..circuit.len() {
            if let Some(net) = search.next() {
                meet_causes(&mut search, circuit, known, net)?;
            }
        }
        Ok(Fixed {
            nets: search.met,
            gates,
        })
    }
}

// Whether a net can't take its value from what is always 0 or 1.
fn takes_nets(circuit: &Circuit, known: &[Known], net: usize) -> bool {
    match circuit.kind(net) {
        Kind::Latch(_) => true,
        Kind::Up | Kind::Down => get(known, net, Known::Later) != Known::Low,
        _ => false,
    }
}

// Meets what makes a net constant: each input of a gate that is always 1.
fn meet_causes(
    search: &mut Search,
    circuit: &Circuit,
    known: &[Known],
    net: usize,
) -> Result<(), AllocError> {
    let is_gate = circuit.kind(net) == Kind::Gate;
    for take in circuit.takes(net) {
        if !is_gate || get(known, *take, Known::Later) == Known::High {
            search.meet(*take)?;
        }
    }
    Ok(())
}

// The data of latches, and what chains come from that stands behind their ends. An end would otherwise become its own
// source.
fn gates(alloc: Global, circuit: &Circuit, wanted: &[bool]) -> Result<Vec<bool>, AllocError> {
    let mut gates = Vec::from_elem(alloc, false, circuit.len())?;
    for net in 0..circuit.len() {
        if get(wanted, net, false) {
            for take in circuit.takes(net) {
                match circuit.kind(net) {
                    Kind::Latch(_) => put(gates.as_mut_slice(), *take, true),
                    Kind::Up | Kind::Down if *take > net => put(gates.as_mut_slice(), *take, true),
                    _ => {}
                }
            }
        }
    }
    Ok(gates)
}
