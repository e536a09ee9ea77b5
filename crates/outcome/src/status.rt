//! How a run ended.

/// How a run ended. The exit statuses are 0 to 5 in this order.
#[derive(Clone, Copy, Debug, PartialEq, Eq)]
pub enum Status {
    Done,
    Refused,
    Usage,
    ReadFault,
    WriteFault,
    NoMemory,
}
