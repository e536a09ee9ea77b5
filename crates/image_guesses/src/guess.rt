//! A path with fewer nets.

use crate::circuit::Circuit;
use crate::drafting::Drafting;
use crate::fixed::Fixed;
use crate::merging::Merging;
use crate::search::wanted;
use path_draft::Draft;
use path_form::DataPath;
use path_reduce::Images;
use std::alloc::{AllocError, Global};

/// A path with fewer nets, and what each net becomes.
#[derive(Drop)]
pub struct Guess {
    pub draft: Draft,
    pub images: Images,
}

/// Guesses a path that shows the same with fewer nets: without those that no output depends on, those that are always
/// 0 or 1, and those that are always as another one, since they get their values in the same way or invert what
/// inverts it. What nothing reads any more for that reason is kept, since images are told by it: a guess for the path
/// that results leaves it out.
///
/// # Errors
/// Want of memory.
pub fn guess_images(alloc: Global, path: &DataPath) -> Result<Guess, AllocError> {
    let circuit = Circuit::of(alloc, path)?;
    let wanted = wanted(alloc, &circuit)?;
    let wanted = wanted.as_slice();
    let free = Fixed::none(alloc, &circuit)?;
    let constants = Merging::of(alloc, &circuit, wanted, &free)?;
    let fixed = Fixed::of(alloc, &circuit, wanted, constants.known.as_slice())?;
    let merging = Merging::of(alloc, &circuit, wanted, &fixed)?;
    let drafting = Drafting::of(alloc, &circuit, &merging)?;
    Ok(Guess {
        draft: drafting.draft(alloc, path)?,
        images: drafting.images(alloc)?,
    })
}
