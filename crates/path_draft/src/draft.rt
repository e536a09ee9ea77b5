//! Drafts.

use mp_base::List;
use nor_net::{NetId, Phase};
use organelles::{Chain, Programmed};
use path_form::{Cast, Lift};
use path_order::Mark;

/// What a net is to be.
#[derive(Drop)]
pub enum DraftPart {
    Input,
    Gate(List<NetId>),
    Latch { phase: Phase, source: NetId },
}

/// A path of which nothing is known: its nets, what joins them, the nets of its pads, and the marks that its order has.
#[derive(Drop)]
pub struct Draft {
    pub control: List<DraftPart>,
    pub slices: List<DraftPart>,
    pub chains: List<Chain>,
    pub programs: List<Programmed>,
    pub casts: List<Cast>,
    pub lifts: List<Lift>,
    pub inputs: List<NetId>,
    pub outputs: List<NetId>,
    pub marks: List<Mark>,
}
