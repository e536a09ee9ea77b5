//! How much a fabric may hold.

/// A fabric has fewer columns, bands, rows, segments, lines and marks than this, each.
pub const LIMIT: usize = 16_777_216;
