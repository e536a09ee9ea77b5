//! The parts of each run.

use silicon::{NamedPart, Part};
use std::alloc::{AllocError, Global};

/// One more part of this name.
pub(crate) fn push(
    alloc: Global,
    parts: &mut Vec<NamedPart>,
    name: &str,
    part: Box<dyn Part>,
) -> Result<(), AllocError> {
    let name = String::from_str(alloc, name)?;
    parts.push(NamedPart { name, part })?;
    Ok(())
}

/// What each part drives, behind its name.
pub(crate) fn told_by(alloc: Global, parts: &[NamedPart]) -> Result<String, AllocError> {
    let mut text = String::new(alloc);
    for named in parts {
        write!(text, " {} {}", named.name, named.part.drives())?;
    }
    Ok(text)
}
