//! The limits of programs, beside that of their weight.

/// How many named definitions and processes a program may have.
pub const NAMING_LIMIT: usize = 256;

/// How many processes a program may have.
pub const PROCESS_LIMIT: usize = 16;

/// How many forms a process may have.
pub const FORM_LIMIT: usize = 256;

/// How deep the stack of a process may be.
pub const DEPTH_LIMIT: u64 = 8;

/// How many expressions a program may have.
pub const EXPR_LIMIT: usize = 4096;
