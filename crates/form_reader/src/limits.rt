//! The limit of a source's forms.

/// How many lists a list may stand in at most (rule E5).
pub const NESTING_LIMIT: u32 = 64;
