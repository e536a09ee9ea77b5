//! The limit of a network.

/// How many nodes and channels a network may have together at most.
pub const MOST_NODES_AND_CHANNELS: usize = 16_777_216;
