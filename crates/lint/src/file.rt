//! A file that was read.

/// The name of a file, and what it holds.
#[derive(Clone, Copy)]
pub struct File<'a> {
    pub name: &'a [u8],
    pub bytes: &'a [u8],
}
