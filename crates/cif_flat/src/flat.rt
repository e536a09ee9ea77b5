//! The flattening of a file.

ghost use Rattle.std.specs.Prelude.{IfOk};
ghost use Rattle.mp_base.specs.Refuses.{IsJudged};
ghost use Rattle.cif_form.specs.Walk.{FileWalks};
ghost use Rattle.cif_form.specs.Walk.WalkEnd.{Whole};
ghost use Rattle.cif_flat.specs.Sound.{IsWellFormed};
ghost use Rattle.cif_flat.specs.Refusing.{OfWalk};

use crate::walker::Walker;
use cif_list::Cif;
use lam_geom::{FlatLabel, Shape};
use mp_base::{List, Refusal};
use std::alloc::Global;

/// What the commands of a file draw, all calls expanded, and its labels in the order of the file.
#[derive(Drop)]
pub struct Flat {
    pub shapes: Shape,
    pub labels: List<FlatLabel>,
}

/// Expands, moves and scales the commands of a file. The first broken rule F in the order of the walk is refused, at
/// the offset of its command.
pub fn flatten(alloc: Global, cif: &Cif) -> Result<Flat, Refusal>
    requires { IsWellFormed cif.now }
    ensures ok { IfOk result (λ flat. FileWalks cif.now flat.shapes flat.labels Whole) }
    ensures judged { IsJudged (OfWalk cif.now) result }
{
    let walker = Walker::walk(alloc, cif)?;
    Ok(walker.into_flat())
}
