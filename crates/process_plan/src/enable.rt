//! When forms are active.

/// Where a form that stands in no other form is active.
#[derive(Clone, Copy, PartialEq, Eq, Debug)]
pub enum Origin {
    /// In each clock: a form of an `always`.
    Always,
    /// In the clocks in which a process is at a place: the form at that place.
    At { process: u32, place: u32 },
}

/// An expression that is 1 in the clocks in which a form is active, and the origin of the form around it that stands in
/// no other.
#[derive(Clone, Copy, PartialEq, Eq, Debug)]
pub struct Enable {
    pub origin: Origin,
    pub expr: u32,
}
