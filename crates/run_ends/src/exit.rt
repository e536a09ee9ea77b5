//! What is told of a run over the system's files.

use std::alloc::{AllocError, Global};

/// An exit status, and what an output took, in lines.
pub fn exit_text(alloc: Global, status: u8, printed: &[u8]) -> Result<String, AllocError> {
    let mut told = format!(in alloc; "    {status}\n")?;
    let printed = String::from_utf8_lossy(alloc, printed)?;
    for line in printed.lines() {
        writeln!(told, "    {line}")?;
    }
    Ok(told)
}
