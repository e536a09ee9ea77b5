//! Reading a stimulus line by line.

use crate::given::Given;
use mp_base::{List, Pad};

/// What the lines so far have given: the pads of the header, and what clocks give inputs.
#[derive(Drop)]
pub struct Reading {
    pub inputs: List<Pad>,
    pub outputs: List<Pad>,
    pub clocks: List<List<Given>>,
}
