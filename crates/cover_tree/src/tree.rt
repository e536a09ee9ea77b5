//! The tree.

ghost use Rattle.cover_tree.specs.Notes.{AreSound};

use crate::changes::{Known, close, tell_part};
use crate::palette::Palette;
use crate::part::Part;
use crate::raise::raise_part;
use crate::trees::Trees;
use lam_geom::Layer;
use mask_runs::{Mask, Run};
use mp_base::NoMemory;
use std::alloc::Global;

/// Up to which row the layers of a mask cover each of a row of cells, and which row was told last: a tree of halves,
/// whose nodes take 64 bytes a cell. What covers a part of the cells as a whole is kept at the part.
#[derive(Drop)]
pub struct CoverTree {
    mask: Mask,
    cells: u32,
    trees: Trees,
    ghost sound: { AreSound mask cells trees },
}

impl CoverTree {
    ghost use Rattle.std.specs.Prelude.{◌≡◌, ℕ, ◌<◌, ◌≤◌, ◌^◌, true, IfOk};
    ghost use Rattle.mask_runs.specs.Colours.{uses};
    ghost use Rattle.cover_tree.specs.Changes.{AreChanges};
    ghost use Rattle.cover_tree.specs.Changing.{with_last};
    ghost use Rattle.cover_tree.specs.Covers.{IsBare, IsRaised, row_colour};
    ghost use Rattle.cover_tree.specs.Trees.{cover_of, told_of, row_of};

    /// A tree over a number of cells, of which none is covered.
    pub fn new(alloc: Global, mask: Mask, cells: u32) -> Result<CoverTree, NoMemory>
        requires some { 0 < cells }
        requires small { cells < 2 ^ 31 }
        ensures bare { IfOk result (λ t. IsBare mask cells (cover_of t)) }
        ensures row { IfOk result (λ t. row_of t ≡ 0) }
        ensures told { IfOk result (λ t. (c : ℕ) → told_of t c ≡ 0) }
    {
        let trees = Trees::new(alloc, mask, cells)?;
        Ok(CoverTree { mask, cells, trees })
    }

    /// Covers the cells from `from` up to `to` with a layer in the rows below `row` besides. Its time is the
    /// logarithm of the cells.
    pub fn raise(&mut self, layer: Layer, from: u32, to: u32, row: u32)
        requires used { uses (cover_of self.old).mask layer ≡ true }
        requires within { to ≤ (cover_of self.old).cells }
        ensures raised { IsRaised (cover_of self.old) (cover_of self.new) layer from to row }
        ensures row { row_of self.new ≡ row_of self.old }
        ensures told { (c : ℕ) → told_of self.new c ≡ told_of self.old c }
    {
        let root = Part::root(self.cells);
        if from < to {
            raise_part(&mut self.trees, layer, root, from, to, row);
        }
    }

    /// Goes on to a row, and gives the cells whose colour in it is another than in the row told last: as pieces with
    /// their new colours, from left to right, in place of those that the list has. The rows before it are past then.
    /// The cells stay covered as they are. Its time is that of the pieces and of the places where a layer was raised
    /// or ends since the row told last, times the logarithm of the cells. Where memory is wanting the list may have
    /// any pieces.
    pub fn advance(&mut self, row: u32, changes: &mut Vec<Run>) -> Result<(), NoMemory>
        requires order { row_of self.old ≤ row }
        ensures cover { cover_of self.new ≡ cover_of self.old }
        ensures row { row_of self.new ≡ row }
        ensures told { (c : ℕ) → c < (cover_of self.old).cells
            → told_of self.new c ≡ row_colour (cover_of self.old) row c }
        ensures changes { IfOk result (λ _.
            AreChanges (told_of self.old) (row_colour (cover_of self.old) row) (cover_of self.old).cells
            changes.new.items) }
    {
        let last = self.tell(row, changes)?;
        close(changes, last)?;
        Ok(())
    }

    // Goes on to a row, and gives its pieces, of which the last one is open.
    fn tell(&mut self, row: u32, pieces: &mut Vec<Run>) -> Result<Run, NoMemory>
        requires order { row_of self.old ≤ row }
        ensures cover { cover_of self.new ≡ cover_of self.old }
        ensures row { row_of self.new ≡ row }
        ensures told { (c : ℕ) → c < (cover_of self.old).cells
            → told_of self.new c ≡ row_colour (cover_of self.old) row c }
        ensures pieces { IfOk result (λ last.
            AreChanges (told_of self.old) (row_colour (cover_of self.old) row) (cover_of self.old).cells
            (with_last pieces.new.items last)) }
    {
        pieces.clear();
        self.trees.since = row;
        let blank = Run {
            left: 0,
            right: 0,
            colour: 0,
        };
        let root = Part::root(self.cells);
        let bare = Known::none();
        let palette = Palette::new(self.mask);
        let mut last = Ok(blank);
        tell_part(&mut self.trees, &palette, root, bare, &mut last, pieces);
        last
    }
}
