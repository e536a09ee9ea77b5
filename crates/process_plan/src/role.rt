//! What cells stand for.

/// What the value of a cell is in the state or in the environment of a program.
#[derive(Clone, Copy, PartialEq, Eq, Debug)]
pub enum Role {
    /// The value of the definition with this index.
    Value(u32),
    /// 1 where the process with this index is at a place, which isn't 0.
    Placed {
        process: u32,
        place: u32,
    },
    /// 1 where an entry of the stack of a process is a place. The level of the last entry that was pushed is 0.
    Stacked {
        process: u32,
        level: u32,
        place: u32,
    },
}
