//! The limit of a file of masks.

/// How many bytes a file of masks may have at most.
pub const MASK_LIMIT: usize = 536_870_912;
