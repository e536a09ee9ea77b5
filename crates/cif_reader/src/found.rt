//! What was read.

/// A value that was read, and where the rest begins.
#[derive(Drop)]
pub(crate) struct Found<T> {
    pub(crate) value: T,
    pub(crate) end: usize,
}
