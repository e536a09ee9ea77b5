//! Windows of a row.

/// The cells of a row from `from` up to `to`, which is outside.
#[derive(Clone, Copy, PartialEq, Eq, Debug)]
pub struct Window {
    pub from: u32,
    pub to: u32,
}
