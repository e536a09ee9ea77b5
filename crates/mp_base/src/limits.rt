//! The limit that sources and register transfers share.

/// The greatest weight of a program, and the most that its register transfers may cost.
pub const WEIGHT_LIMIT: u32 = 1024;
