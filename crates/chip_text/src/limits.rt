//! The limit of a chip's text.

/// How many bytes the text of a chip has at most. A file of masks may have as many.
pub const TEXT_LIMIT: usize = 536_870_912;
