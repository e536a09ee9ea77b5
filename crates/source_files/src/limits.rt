//! The limit of a text.

/// How many bytes a source or a stimulus may have at most.
pub const TEXT_LIMIT: usize = 1_048_576;
