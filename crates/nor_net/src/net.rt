//! Nets of inputs, NOR gates and latches.

ghost use Rattle.std.specs.Prelude.{◌≡◌, ◌<◌, ◌≤◌, ◌↔◌, ◌+◌, [], Some, None, All, IfSome, IfOk, IsTrue};
ghost use Rattle.std.specs.Prelude.{MatchOption, OnErr, length, slice_get, slice_set};
ghost use Rattle.nor_net.specs.Shape.{Fed, IsAdded, IsFed, IsNet, MayTake, count_inputs, fed, gate_inputs};
ghost use Rattle.nor_net.specs.Shape.{input_count, kind_of, net_limit};
ghost use Rattle.nor_net.specs.declared.net.NetKind.TheVariants as kind;
ghost use Rattle.nor_net.specs.declared.net.Part.TheVariants as part;

use crate::inputs::Inputs;
use mp_base::{List, NoMemory};
use std::alloc::Global;
use std::marker::Model;

/// A net, by its number.
#[derive(Clone, Copy, PartialEq, Eq, Debug, Default)]
pub struct NetId(pub u32);

/// The three phases of a clock, at which latches take their data: first C, for the inputs, then A, then B.
#[derive(Clone, Copy, PartialEq, Eq, Debug)]
pub enum Phase {
    A,
    B,
    C,
}

/// What a net is. A latch has no source until it is fed.
#[derive(Clone, Copy, PartialEq, Eq, Debug)]
pub enum NetKind {
    Input,
    Gate,
    Latch { phase: Phase, source: Option<NetId> },
}

/// A net with the nets that it is made from: what a `Net` is a list of.
#[derive(Drop)]
pub enum Part {
    Input,
    Gate(Inputs),
    Latch { phase: Phase, source: Option<NetId> },
}

/// Nets by their numbers. A gate stands after its inputs, the data of a latch is a gate, or an input where the latch is
/// of phase C, and there are fewer than 2^24 nets and 2^24 inputs of gates.
#[derive(Drop)]
pub struct Net {
    parts: List<Part>,
}

impl Model for Net {
    ghost use Rattle.nor_net.specs.declared.net.Part.{Part};
    ghost use Rattle.nor_net.specs.Shape.{IsNet};
    ghost use Rattle.std.specs.Prelude.{List};

    ghost Value = { List Part };

    ghost view = { λ s. s.parts };

    ghost invariant = { λ s. IsNet s.parts };
}

// One for an input, else none.
fn count_of(part: &Part) -> u32
    ensures value { result ≡ input_count part.now }
    ensures small { result ≤ 1 }
{
    match part {
        Part::Input => 1,
        _ => 0,
    }
}

// Whether this is no latch that lacks its data.
fn has_data(part: &Part) -> bool
    ensures { IsTrue result ↔ Fed part.now }
{
    !matches!(part, Part::Latch { source: None, .. })
}

impl Net {
    /// No nets.
    pub fn new(alloc: Global) -> Net
        ensures { result ≡ [] }
    {
        Net {
            parts: List::new(alloc),
        }
    }

    /// How many nets there are.
    pub fn len(&self) -> u32
        ensures len { result ≡ length self.now }
        ensures shape { IsNet self.now }
    {
        self.parts.len() as u32
    }

    /// How many inputs there are.
    #[tactic(auto, using(crate::proofs::Counting::inputs_more))]
    pub fn inputs(&self) -> u32
        ensures { result ≡ count_inputs self.now }
    {
        let mut count = 0;
        for part in self.parts.as_slice() {
            count += count_of(part);
        }
        count
    }

    /// Whether every latch has its data.
    pub fn is_fed(&self) -> bool
        ensures { IsTrue result ↔ IsFed self.now }
    {
        self.parts.as_slice().iter().all(|part| has_data(part))
    }

    /// What this net is.
    pub fn kind(&self, net: NetId) -> NetKind
        requires { net.0 < length self.now }
        ensures { IfSome (slice_get self.now net.0) (λ p. result ≡ kind_of p) }
    {
        match self.parts.at(net.0) {
            Part::Input => NetKind::Input,
            Part::Gate(_) => NetKind::Gate,
            Part::Latch { phase, source } => NetKind::Latch {
                phase: *phase,
                source: *source,
            },
        }
    }

    /// Adds an input at the end.
    ///
    /// # Errors
    ///
    /// `NoMemory`: then the net is as it was.
    pub fn input(&mut self) -> Result<NetId, NoMemory>
        requires { length self.old + 1 < net_limit }
        ensures ok { IfOk result (λ id. IsAdded self.old part.Input self.new id) }
        ensures err { OnErr result (self.new ≡ self.old) }
    {
        let id = NetId(self.parts.len() as u32);
        match self.parts.push(Part::Input) {
            Ok(()) => Ok(id),
            Err(_) => Err(NoMemory),
        }
    }

    /// Adds a gate at the end.
    ///
    /// # Errors
    ///
    /// `NoMemory`: then the net is as it was.
    pub fn gate(&mut self, alloc: Global, inputs: &[NetId]) -> Result<NetId, NoMemory>
        requires room { length self.old + 1 < net_limit }
        requires inputs_room { gate_inputs self.old + length inputs.now < net_limit }
        requires inputs { All (λ j. j.0 < length self.old) inputs.now }
        ensures ok { IfOk result (λ id. IsAdded self.old (part.Gate inputs.now) self.new id) }
        ensures err { OnErr result (self.new ≡ self.old) }
    {
        let id = NetId(self.parts.len() as u32);
        let Ok(inputs) = Inputs::of(alloc, inputs) else {
            return Err(NoMemory);
        };
        match self.parts.push(Part::Gate(inputs)) {
            Ok(()) => Ok(id),
            Err(_) => Err(NoMemory),
        }
    }

    /// Adds a latch at the end, which isn't fed yet.
    ///
    /// # Errors
    ///
    /// `NoMemory`: then the net is as it was.
    pub fn latch(&mut self, phase: Phase) -> Result<NetId, NoMemory>
        requires { length self.old + 1 < net_limit }
        ensures ok { IfOk result (λ id. IsAdded self.old (part.Latch phase None) self.new id) }
        ensures err { OnErr result (self.new ≡ self.old) }
    {
        let id = NetId(self.parts.len() as u32);
        match self.parts.push(Part::Latch {
            phase,
            source: None,
        }) {
            Ok(()) => Ok(id),
            Err(_) => Err(NoMemory),
        }
    }

    /// Gives a latch that has no data its data.
    pub fn feed(&mut self, latch: NetId, source: NetId)
        requires { MayTake (slice_get self.old latch.0) (slice_get self.old source.0) }
        ensures { IfSome (slice_get self.old latch.0) (λ p. self.new ≡ slice_set self.old latch.0 (fed source p)) }
    {
        let part = self.parts.at(latch.0);
        if let Part::Latch { phase, .. } = part {
            let phase = *phase;
            self.parts.set(
                latch.0,
                Part::Latch {
                    phase,
                    source: Some(source),
                },
            );
        }
    }

    /// The inputs of a gate.
    pub fn gate_inputs(&self, gate: NetId) -> &[NetId]
        requires { MatchOption (slice_get self.now gate.0) ⊥ (λ p. kind_of p ≡ kind.Gate) }
        ensures { slice_get self.now gate.0 ≡ Some (part.Gate result.now) }
    {
        match self.parts.at(gate.0) {
            Part::Gate(inputs) => inputs.as_slice(),
            _ => &[],
        }
    }
}
