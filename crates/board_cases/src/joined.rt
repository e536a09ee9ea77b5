//! The parts of each board.

use board::{NamedPart, Part};
use std::alloc::{AllocError, Global};

/// These parts and one more, of a name.
pub(crate) fn with(
    alloc: Global,
    mut parts: Vec<NamedPart>,
    name: &str,
    part: Box<dyn Part>,
) -> Result<Vec<NamedPart>, AllocError> {
    let name = String::from_str(alloc, name)?;
    parts.push(NamedPart { name, part })?;
    Ok(parts)
}

/// What each part drives, behind its name.
pub(crate) fn told_by(alloc: Global, parts: &[NamedPart]) -> Result<String, AllocError> {
    let mut text = String::new(alloc);
    for named in parts {
        write!(text, " {} {}", named.name, named.part.drives())?;
    }
    Ok(text)
}
