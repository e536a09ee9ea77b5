//! The path of the nets that are kept, in numbers of their own.

use crate::circuit::{Circuit, Kind};
use crate::lists::get;
use crate::merging::{Known, Merging};
use mp_base::List;
use nor_net::NetId;
use organelles::{Chain, Programmed};
use path_draft::{Draft, DraftPart};
use path_form::{Cast, DataPath, Lift};
use path_order::Mark;
use path_reduce::{Becomes, Images};
use std::alloc::{AllocError, Global};

/// What is known of a circuit's nets, with how many nets of its band are kept before each, and of each band in all.
#[derive(Drop)]
pub(crate) struct Drafting<'a> {
    circuit: &'a Circuit,
    merging: &'a Merging,
    before: Vec<u32>,
    control: u32,
    slices: u32,
}

impl<'a> Drafting<'a> {
    /// Counts the nets that are kept.
    pub fn of(
        alloc: Global,
        circuit: &'a Circuit,
        merging: &'a Merging,
    ) -> Result<Drafting<'a>, AllocError> {
        let mut before = Vec::new(alloc);
        let mut control: u32 = 0;
        let mut slices: u32 = 0;
        for net in 0..circuit.len() {
            let kept = u32::from(merging.is_kept(net));
            if net < circuit.control {
                before.push(control)?;
                control = control.saturating_add(kept);
            } else {
                before.push(slices)?;
                slices = slices.saturating_add(kept);
            }
        }
        Ok(Drafting {
            circuit,
            merging,
            before,
            control,
            slices,
        })
    }

    // The number of what a net is always as.
    fn number(&self, net: usize) -> NetId {
        match self.merging.known(net) {
            Known::Net(same) => NetId(get(self.before.as_slice(), same, 0)),
            _ => NetId(0),
        }
    }

    fn numbers(&self, alloc: Global, nets: &[usize]) -> Result<List<NetId>, AllocError> {
        let mut numbers = Vec::new(alloc);
        for net in nets {
            numbers.push(self.number(*net))?;
        }
        Ok(List::from_vec(numbers))
    }

    fn image(&self, net: usize) -> Becomes {
        match self.merging.known(net) {
            Known::Later => Becomes::LeftOut,
            Known::Low => Becomes::Low,
            Known::High => Becomes::High,
            Known::Net(_) => Becomes::Net(self.number(net)),
        }
    }

    /// What each net becomes.
    pub fn images(&self, alloc: Global) -> Result<Images, AllocError> {
        let mut control = Vec::new(alloc);
        let mut slices = Vec::new(alloc);
        for net in 0..self.circuit.len() {
            if net < self.circuit.control {
                control.push(self.image(net))?;
            } else {
                slices.push(self.image(net))?;
            }
        }
        Ok(Images {
            control: List::from_vec(control),
            slices: List::from_vec(slices),
        })
    }

    /// The path of the nets that are kept.
    pub fn draft(&self, alloc: Global, path: &DataPath) -> Result<Draft, AllocError> {
        let slices = &path.slices;
        Ok(Draft {
            control: self.parts(alloc, 0, self.circuit.control)?,
            slices: self.parts(alloc, self.circuit.control, self.circuit.len())?,
            chains: self.chains(alloc, slices.chains.as_slice())?,
            programs: self.programs(alloc, slices.programs.as_slice())?,
            casts: self.casts(alloc, path.casts.as_slice())?,
            lifts: self.lifts(alloc, path.lifts.as_slice())?,
            inputs: self.numbers(alloc, self.circuit.inputs.as_slice())?,
            outputs: self.numbers(alloc, self.circuit.outputs.as_slice())?,
            marks: self.marks(alloc, path)?,
        })
    }

    // A net that is kept.
    fn part(&self, alloc: Global, net: usize) -> Result<DraftPart, AllocError> {
        Ok(match (self.circuit.kind(net), self.circuit.takes(net)) {
            (Kind::Gate, _) => DraftPart::Gate(self.numbers(alloc, self.merging.takes(net))?),
            (Kind::Latch(phase), [data]) => DraftPart::Latch {
                phase,
                source: self.number(*data),
            },
            _ => DraftPart::Input,
        })
    }

    // The nets of a band that are kept, where these are the circuit's numbers of the band.
    fn parts(
        &self,
        alloc: Global,
        first: usize,
        end: usize,
    ) -> Result<List<DraftPart>, AllocError> {
        let mut parts = Vec::new(alloc);
        for net in first..end {
            if self.merging.is_kept(net) {
                parts.push(self.part(alloc, net)?)?;
            }
        }
        Ok(List::from_vec(parts))
    }

    // A chain, if its end is kept.
    fn chain(&self, chain: Chain) -> Option<Chain> {
        let (from, to) = match chain {
            Chain::Up { from, to } | Chain::Down { from, to } => (from, to),
        };
        let end = self.circuit.slice_net(to);
        if !self.merging.is_kept(end) {
            return None;
        }
        let from = self.number(self.circuit.slice_net(from));
        let to = self.number(end);
        Some(match chain {
            Chain::Up { .. } => Chain::Up { from, to },
            Chain::Down { .. } => Chain::Down { from, to },
        })
    }

    fn chains(&self, alloc: Global, chains: &[Chain]) -> Result<List<Chain>, AllocError> {
        let mut kept = Vec::new(alloc);
        for chain in chains {
            if let Some(chain) = self.chain(*chain) {
                kept.push(chain)?;
            }
        }
        Ok(List::from_vec(kept))
    }

    fn programs(
        &self,
        alloc: Global,
        programs: &[Programmed],
    ) -> Result<List<Programmed>, AllocError> {
        let mut kept = Vec::new(alloc);
        for program in programs {
            let net = self.circuit.slice_net(program.net);
            if self.merging.is_kept(net) {
                kept.push(Programmed {
                    net: self.number(net),
                    bits: program.bits,
                })?;
            }
        }
        Ok(List::from_vec(kept))
    }

    fn casts(&self, alloc: Global, casts: &[Cast]) -> Result<List<Cast>, AllocError> {
        let mut kept = Vec::new(alloc);
        for cast in casts {
            let slice = self.circuit.slice_net(cast.slice);
            if self.merging.is_kept(slice) {
                kept.push(Cast {
                    control: self.number(cast.control.0 as usize),
                    slice: self.number(slice),
                })?;
            }
        }
        Ok(List::from_vec(kept))
    }

    fn lifts(&self, alloc: Global, lifts: &[Lift]) -> Result<List<Lift>, AllocError> {
        let mut kept = Vec::new(alloc);
        for lift in lifts {
            let control = lift.control.0 as usize;
            if self.merging.is_kept(control) {
                kept.push(Lift {
                    slice: lift.slice,
                    from: self.number(self.circuit.slice_net(lift.from)),
                    control: self.number(control),
                })?;
            }
        }
        Ok(List::from_vec(kept))
    }

    // The point of the order behind so many nets of the slices and of the control.
    fn mark(&self, slices: usize, control: usize) -> Mark {
        let first = self.circuit.control.saturating_add(slices);
        Mark {
            slices: get(self.before.as_slice(), first, self.slices),
            control: if control < self.circuit.control {
                get(self.before.as_slice(), control, self.control)
            } else {
                self.control
            },
        }
    }

    // The points of the order behind each piece of the control and of the last slice, and the end.
    fn marks(&self, alloc: Global, path: &DataPath) -> Result<List<Mark>, AllocError> {
        let mut marks = Vec::new(alloc);
        let mut slices = 0;
        let mut control = 0;
        for piece in path.order.as_slice() {
            let end = (piece.last as usize).saturating_add(1);
            if piece.band == 0 {
                control = end;
            } else {
                slices = end;
            }
            if piece.band == 0 || piece.band == path.width as u32 {
                marks.push(self.mark(slices, control))?;
            }
        }
        marks.push(Mark {
            slices: self.slices,
            control: self.control,
        })?;
        marks.dedup();
        Ok(List::from_vec(marks))
    }
}
