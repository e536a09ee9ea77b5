//! The limits of a stimulus.

/// How many clocks a stimulus may have at most.
pub const CLOCK_LIMIT: usize = 65536;

/// How many pads a header may name at most.
pub const PAD_LIMIT: usize = 256;
