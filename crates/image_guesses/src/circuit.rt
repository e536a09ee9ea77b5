//! A path as one circuit: the nets of the control, and numbered behind them those of a slice, which stands for all.

use mp_base::Pad;
use nor_net::{Net, NetId, NetKind, Phase};
use organelles::Chain;
use path_form::{DataPath, Piece};
use std::alloc::{AllocError, Global};

/// How a net gets its value, but for the nets that it takes it from.
#[derive(Clone, Copy, PartialEq, Eq)]
pub(crate) enum Kind {
    Given,
    Gate,
    Latch(Phase),
    Lift(u8),
    Cast,
    Up,
    Down,
    Program(u64),
}

/// How a net gets its value, and from which nets.
#[derive(Drop)]
pub(crate) struct Element {
    pub kind: Kind,
    pub takes: Vec<usize>,
}

/// The nets, those of the control first, in an order in which they stand behind what they take their values from, but
/// for latches and for what comes from the slice beside; and the nets of the pads.
#[derive(Drop)]
pub(crate) struct Circuit {
    pub control: usize,
    pub order: Vec<usize>,
    pub inputs: Vec<usize>,
    pub outputs: Vec<usize>,
    elements: Vec<Element>,
}

fn one(alloc: Global, net: usize) -> Result<Vec<usize>, AllocError> {
    let mut nets = Vec::new(alloc);
    nets.push(net)?;
    Ok(nets)
}

// The inputs of a gate, where the numbers of its band begin at this one.
fn inputs(alloc: Global, gate: &[NetId], first: usize) -> Result<Vec<usize>, AllocError> {
    let mut inputs = Vec::new(alloc);
    for input in gate {
        inputs.push(first.saturating_add(input.0 as usize))?;
    }
    Ok(inputs)
}

// How a net alone gets its value. Inputs are given theirs, until it is known what joins them.
fn net_element(alloc: Global, net: &Net, n: u32, first: usize) -> Result<Element, AllocError> {
    let mut element = Element {
        kind: Kind::Given,
        takes: Vec::new(alloc),
    };
    if n < net.len() {
        match net.kind(NetId(n)) {
            NetKind::Gate => {
                element.kind = Kind::Gate;
                element.takes = inputs(alloc, net.gate_inputs(NetId(n)), first)?;
            }
            NetKind::Latch {
                phase,
                source: Some(data),
            } => {
                element.kind = Kind::Latch(phase);
                element.takes = one(alloc, first.saturating_add(data.0 as usize))?;
            }
            _ => {}
        }
    }
    Ok(element)
}

fn push_elements(alloc: Global, elements: &mut Vec<Element>, net: &Net) -> Result<(), AllocError> {
    let first = elements.len();
    for n in 0..net.len() {
        elements.push(net_element(alloc, net, n, first)?)?;
    }
    Ok(())
}

// The net of a pad: a signal has one in the control, a word one in the slices.
fn pad_nets(
    alloc: Global,
    circuit: &Circuit,
    pads: &[Pad],
    ids: &[NetId],
) -> Result<Vec<usize>, AllocError> {
    let mut nets = Vec::new(alloc);
    for (pad, id) in pads.iter().zip(ids.iter()) {
        if pad.width == 0 {
            nets.push(id.0 as usize)?;
        } else {
            nets.push(circuit.slice_net(*id))?;
        }
    }
    Ok(nets)
}

impl Circuit {
    /// The circuit of a path.
    pub fn of(alloc: Global, path: &DataPath) -> Result<Circuit, AllocError> {
        let mut circuit = Circuit {
            control: path.control.len() as usize,
            order: Vec::new(alloc),
            inputs: Vec::new(alloc),
            outputs: Vec::new(alloc),
            elements: Vec::new(alloc),
        };
        push_elements(alloc, &mut circuit.elements, &path.control)?;
        push_elements(alloc, &mut circuit.elements, &path.slices.net)?;
        circuit.join(alloc, path)?;
        circuit.chain(alloc, path)?;
        for piece in path.order.as_slice() {
            circuit.push_piece(*piece)?;
        }
        let pads = &path.pads;
        circuit.inputs = pad_nets(
            alloc,
            &circuit,
            pads.inputs.as_slice(),
            path.inputs.as_slice(),
        )?;
        circuit.outputs = pad_nets(
            alloc,
            &circuit,
            pads.outputs.as_slice(),
            path.outputs.as_slice(),
        )?;
        Ok(circuit)
    }

    /// The number of a net of the slices.
    pub fn slice_net(&self, id: NetId) -> usize {
        self.control.saturating_add(id.0 as usize)
    }

    /// How many nets there are.
    pub fn len(&self) -> usize {
        self.elements.len()
    }

    /// How a net gets its value.
    pub fn kind(&self, net: usize) -> Kind {
        if net < self.elements.len() {
            self.elements[net].kind
        } else {
            Kind::Given
        }
    }

    /// The nets that it takes it from.
    pub fn takes(&self, net: usize) -> &[usize] {
        if net < self.elements.len() {
            self.elements[net].takes.as_slice()
        } else {
            &[]
        }
    }

    fn set(&mut self, net: usize, kind: Kind, takes: Vec<usize>) {
        if net < self.elements.len() {
            self.elements[net] = Element { kind, takes };
        }
    }

    // Casts and lifts.
    fn join(&mut self, alloc: Global, path: &DataPath) -> Result<(), AllocError> {
        for cast in path.casts.as_slice() {
            let from = one(alloc, cast.control.0 as usize)?;
            self.set(self.slice_net(cast.slice), Kind::Cast, from);
        }
        for lift in path.lifts.as_slice() {
            let from = one(alloc, self.slice_net(lift.from))?;
            self.set(lift.control.0 as usize, Kind::Lift(lift.slice), from);
        }
        Ok(())
    }

    // Chains and programs.
    fn chain(&mut self, alloc: Global, path: &DataPath) -> Result<(), AllocError> {
        for chain in path.slices.chains.as_slice() {
            let (kind, from, to) = match chain {
                Chain::Up { from, to } => (Kind::Up, *from, *to),
                Chain::Down { from, to } => (Kind::Down, *from, *to),
            };
            let from = one(alloc, self.slice_net(from))?;
            self.set(self.slice_net(to), kind, from);
        }
        for program in path.slices.programs.as_slice() {
            let none = Vec::new(alloc);
            self.set(
                self.slice_net(program.net),
                Kind::Program(program.bits),
                none,
            );
        }
        Ok(())
    }

    // The nets of a piece of the order, of the slices those of the first.
    fn push_piece(&mut self, piece: Piece) -> Result<(), AllocError> {
        let Piece { band, first, last } = piece;
        if band > 1 {
            return Ok(());
        }
        let base = if band == 0 { 0 } else { self.control };
        for n in first as usize..(last as usize).saturating_add(1) {
            self.order.push(base.saturating_add(n))?;
        }
        Ok(())
    }
}
