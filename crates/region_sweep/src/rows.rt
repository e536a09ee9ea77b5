//! The sweep over rows of cells.

ghost use Rattle.std.specs.Prelude.{◌≡◌, ℕ, ◌+◌, ◌-◌, ◌<◌, ◌≤◌, ◌^◌, All, IfOk, OnOk, length};
ghost use Rattle.cover_tree.specs.Trees.{cover_of, told_of, row_of};
ghost use Rattle.kept_runs.specs.Kept.{width_of};
ghost use Rattle.strip_rows.specs.Swept.{strips_of, cells_of, IsSwept, KeepNumbers};
ghost use Rattle.region_sweep.specs.Blocks.{painted, AreStacked};
ghost use Rattle.region_sweep.specs.declared.spot.Spot.{Spot};
ghost use Rattle.region_sweep.specs.Rows.{spot, AreWithin, AreRaised, IsUpTo, AreAsked, IsFront, IsAnswer};
ghost use Rattle.region_sweep.specs.Rows.{AreAnswered, IsBlank, IsSweptTo, IsSweep};

use crate::block::Block;
use crate::repaint::repaint;
use crate::spot::Spot;
use cover_tree::CoverTree;
use kept_runs::KeptRuns;
use mask_runs::laws::colours_by_layers;
use mask_runs::{Mask, Run};
use mp_base::NoMemory;
use row_windows::{Window, collect_windows, find_windows};
use std::alloc::Global;
use strip_rows::{StripRows, Strips};

/// How many cells and rows a grid has.
#[derive(Clone, Copy)]
pub(crate) struct Size {
    pub cells: u32,
    pub rows: u32,
}

/// The strips of the colours that the blocks make on the mask, the pairs that touch, and in `found` the answers for the
/// spots.
pub(crate) fn sweep_rows(
    alloc: Global,
    mask: Mask,
    size: Size,
    blocks: &[Block],
    spots: &[Spot],
    found: &mut [Option<u32>],
) -> Result<Strips, NoMemory>
    requires cells { 0 < size.cells }
    requires small { size.cells < 2 ^ 31 }
    requires rows { 0 < size.rows }
    requires stacked { AreStacked mask size.cells size.rows blocks.now }
    requires asked { AreAsked (length found.old) spots.now }
    requires spots { All (λ s. s.row < size.rows) spots.now }
    requires places { All (λ s. s.cell < size.cells) spots.now }
    ensures { IfOk result (λ s. IsSweep (painted mask blocks.now) spots.now s found.new) }
{
    colours_by_layers();
    let mut front = Front::new(alloc, mask, size.cells)?;
    front.climb(size, blocks, spots, found)?;
    Ok(front.strips.finish())
}

// The row that was swept last, and what is found up to there.
#[derive(Drop)]
struct Front {
    tree: CoverTree,
    kept: KeptRuns,
    strips: StripRows,
    room: Room,
}

// Lists that each row fills anew, kept so that no row has to ask for its own.
#[derive(Drop)]
struct Room {
    changed: Vec<Run>,
    windows: Vec<Window>,
    piece: Vec<Run>,
    old: Vec<Run>,
    new: Vec<Run>,
}

impl Front {
    // Row 0, which has no colours.
    fn new(alloc: Global, mask: Mask, cells: u32) -> Result<Front, NoMemory>
        requires some { 0 < cells }
        requires small { cells < 2 ^ 31 }
        ensures { IfOk result (λ f. IsBlank mask cells f.tree f.kept f.strips) }
    {
        let tree = CoverTree::new(alloc, mask, cells)?;
        let kept = KeptRuns::new(alloc, cells)?;
        let strips = StripRows::new(alloc, cells)?;
        Ok(Front {
            tree,
            kept,
            strips,
            room: Room {
                changed: Vec::new(alloc),
                windows: Vec::new(alloc),
                piece: Vec::new(alloc),
                old: Vec::new(alloc),
                new: Vec::new(alloc),
            },
        })
    }

    // Goes up from row 0 to the last one.
    fn climb(
        &mut self,
        size: Size,
        blocks: &[Block],
        spots: &[Spot],
        found: &mut [Option<u32>],
    ) -> Result<(), NoMemory>
        requires blank { IsBlank (cover_of self.old.tree).mask size.cells self.old.tree self.old.kept self.old.strips }
        requires rows { 0 < size.rows }
        requires stacked { AreStacked (cover_of self.old.tree).mask size.cells size.rows blocks.now }
        requires asked { AreAsked (length found.old) spots.now }
        requires spots { All (λ s. s.row < size.rows) spots.now }
        requires places { All (λ s. s.cell < size.cells) spots.now }
        ensures swept { OnOk result (IsSwept (painted (cover_of self.old.tree).mask blocks.now) (size.rows - 1)
            self.new.strips) }
        ensures answers { OnOk result (AreAnswered (painted (cover_of self.old.tree).mask blocks.now)
            (strips_of self.new.strips) spots.now (length spots.now) found.new) }
    {
        colours_by_layers();
        let mut raised = 0;
        let mut answered = answer(&self.strips, &self.kept, spots, 0, 0, found);
        for below in 0..size.rows - 1 {
            raised = self.step(blocks, raised, below)?;
            answered = answer(&self.strips, &self.kept, spots, answered, below + 1, found);
        }
        Ok(())
    }

    // Goes up from a row to the next one, and tells how many blocks are raised then.
    fn step(&mut self, blocks: &[Block], raised: usize, below: u32) -> Result<usize, NoMemory>
        requires next { below + 1 < 2 ^ 32 }
        requires stacked { (rows : ℕ)
            × AreStacked (cover_of self.old.tree).mask (width_of self.old.kept) rows blocks.now }
        requires at { IsSweptTo (cover_of self.old.tree).mask (width_of self.old.kept) blocks.now below raised
            self.old.tree self.old.kept self.old.strips }
        ensures at { IfOk result (λ next.
            IsSweptTo (cover_of self.old.tree).mask (width_of self.old.kept) blocks.now (below + 1) next
            self.new.tree self.new.kept self.new.strips) }
        ensures numbers { IfOk result (λ _. KeepNumbers (strips_of self.old.strips) (strips_of self.new.strips)) }
    {
        colours_by_layers();
        let row = below + 1;
        let next = raise(&mut self.tree, blocks, raised, row);
        self.tree.advance(row, &mut self.room.changed)?;
        find_windows(&self.kept, &self.room.changed, &mut self.room.windows)?;
        collect_windows(
            &self.kept,
            &self.room.windows,
            &mut self.room.piece,
            &mut self.room.old,
        )?;
        repaint(&self.room.changed, &mut self.kept);
        collect_windows(
            &self.kept,
            &self.room.windows,
            &mut self.room.piece,
            &mut self.room.new,
        )?;
        self.strips.step(&self.room.old, &self.room.new)?;
        Ok(next)
    }
}

// Raises the blocks that begin in the row.
fn raise(tree: &mut CoverTree, blocks: &[Block], raised: usize, row: u32) -> usize
    requires within { AreWithin (cover_of tree.old).mask (cover_of tree.old).cells blocks.now }
    requires raised { AreRaised blocks.now row raised (cover_of tree.old) }
    ensures up_to { IsUpTo (cover_of tree.old).mask (cover_of tree.old).cells blocks.now row result
        (cover_of tree.new) }
    ensures row { row_of tree.new ≡ row_of tree.old }
    ensures told { (c : ℕ) → told_of tree.new c ≡ told_of tree.old c }
{
    let mut next = raised;
    while next < blocks.len() && blocks[next].low <= row {
        let block = blocks[next];
        tree.raise(block.layer, block.left, block.right, block.high);
        next += 1;
    }
    next
}

// Answers the spots of the row.
fn answer(
    strips: &StripRows,
    kept: &KeptRuns,
    spots: &[Spot],
    answered: usize,
    row: u32,
    found: &mut [Option<u32>],
) -> usize
    requires cells { width_of kept.now ≤ cells_of strips.now }
    requires spots { AreAsked (length found.old) spots.now }
    requires places { All (λ s. s.cell < width_of kept.now) spots.now }
    requires within { answered ≤ length spots.now }
    requires waiting { (j : ℕ) → answered ≤ j → j < length spots.now → row ≤ (spot spots.now j).row }
    ensures answers { (colour : ℕ → ℕ → ℕ) → IsFront colour row strips.now kept.now
        → AreAnswered colour (strips_of strips.now) spots.now answered found.old
        → AreAnswered colour (strips_of strips.now) spots.now result found.new }
    ensures within { result ≤ length spots.now }
    ensures waiting { (j : ℕ) → result ≤ j → j < length spots.now → row < (spot spots.now j).row }
{
    let mut next = answered;
    while next < spots.len() && spots[next].row == row {
        let spot = spots[next];
        found[spot.index] = number_at(strips, kept, spot.cell);
        next += 1;
    }
    next
}

// The number of the strip that has a cell of the last row.
fn number_at(strips: &StripRows, kept: &KeptRuns, cell: u32) -> Option<u32>
    requires cells { width_of kept.now ≤ cells_of strips.now }
    requires cell { cell < width_of kept.now }
    ensures { (colour : ℕ → ℕ → ℕ) (row : ℕ) (p : Spot) → IsFront colour row strips.now kept.now → p.row ≡ row
        → p.cell ≡ cell → IsAnswer colour (strips_of strips.now) p result }
{
    match kept.run_at(cell) {
        Some(run) => Some(strips.strip_at(run.left)),
        None => None,
    }
}
