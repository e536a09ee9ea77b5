//! A path with fewer nets.

ghost use Rattle.std.specs.Prelude.{◌≡◌, IfOk, IfSome};
ghost use Rattle.path_draft.specs.Likeness.{IsLike};
ghost use Rattle.path_reducing.specs.Reduced.{IsReducedFrom};

use crate::reading::is_used;
use image_guesses::{Guess, guess_images};
use mp_base::NoMemory;
use path_draft::{Draft, path_of};
use path_form::DataPath;
use path_reduce::Images;
use path_reduce::laws::{reduced_paths_show, reductions_reduce};
use path_test::is_reduction;
use std::alloc::Global;

// A path, if it is another one with fewer nets.
fn tested(
    alloc: Global,
    path: &DataPath,
    reduced: DataPath,
    images: &Images,
) -> Result<Option<DataPath>, NoMemory>
    requires { IsLike path.now reduced }
    ensures { IfOk result (λ reduced. IfSome reduced (IsReducedFrom path.now)) }
{
    reductions_reduce();
    reduced_paths_show();
    let reduction = is_reduction(alloc, path, &reduced, images)?;
    let used = is_used(alloc, &reduced)?;
    if reduction && used {
        Ok(Some(reduced))
    } else {
        Ok(None)
    }
}

// The path of a draft, if it is one, and the other one with fewer nets.
fn drafted(
    alloc: Global,
    path: &DataPath,
    draft: Draft,
    images: &Images,
) -> Result<Option<DataPath>, NoMemory>
    ensures { IfOk result (λ reduced. IfSome reduced (IsReducedFrom path.now)) }
{
    match path_of(alloc, path, draft)? {
        Some(reduced) => tested(alloc, path, reduced, images),
        None => Ok(None),
    }
}

// A path with fewer nets, if what is guessed is one.
fn guessed(alloc: Global, path: &DataPath) -> Result<Option<DataPath>, NoMemory>
    ensures { IfOk result (λ reduced. IfSome reduced (IsReducedFrom path.now)) }
{
    let Guess { draft, images } = guess_images(alloc, path)?;
    drafted(alloc, path, draft, &images)
}

// The path that is guessed, or the path itself where that isn't one with fewer nets.
fn once(alloc: Global, path: DataPath) -> Result<DataPath, NoMemory>
    ensures { IfOk result (IsReducedFrom path) }
{
    match guessed(alloc, &path)? {
        Some(reduced) => Ok(reduced),
        None => Ok(path),
    }
}

/// A path with fewer nets that shows what the path shows, or the path itself where no other is found. The two have the
/// same pads and words of one length, and it has no more of anything. What nothing reads once other nets are gone goes
/// in a second round.
///
/// # Errors
///
/// `NoMemory`.
pub fn reduced(alloc: Global, path: DataPath) -> Result<DataPath, NoMemory>
    ensures { IfOk result (IsReducedFrom path) }
{
    let first = once(alloc, path)?;
    let second = once(alloc, first)?;
    Ok(second)
}
