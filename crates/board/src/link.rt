//! Links of parts to pads.

/// A part that sees an output and drives an input, each by its index.
#[derive(Clone, Copy)]
pub struct Link {
    pub part: u32,
    pub seen: u32,
    pub driven: u32,
}

/// What a word names: a part, an output, and an input that may be driven.
#[derive(Clone, Copy)]
pub(crate) struct Naming {
    pub part: Option<u32>,
    pub seen: Option<u32>,
    pub driven: Option<u32>,
}
