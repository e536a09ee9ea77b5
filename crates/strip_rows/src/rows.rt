//! The sweep over rows.

ghost use Rattle.std.specs.Prelude.{◌≡◌, ℕ, ◌<◌, ◌≤◌, ◌+◌, IfOk, OnOk};
ghost use Rattle.mask_runs.specs.declared.run.Run.{Run};
ghost use Rattle.mask_runs.specs.Runs.{IsRun};
ghost use Rattle.strip_rows.specs.Strips.{AreStrips};
ghost use Rattle.strip_rows.specs.Touching.{AreTouching};
ghost use Rattle.strip_rows.specs.Changes.{LieInRow, IsChange};
ghost use Rattle.strip_rows.specs.Swept.{strips_of, cells_of, IsOpenAt, IsSwept, KeepNumbers};

use crate::ends::{begin_strips, end_strips};
use crate::missing::missing;
use crate::pairs::{next, pair_beside, pair_upon};
use crate::strip::{Strip, Strips};
use mask_runs::Run;
use mp_base::NoMemory;
use std::alloc::Global;
use union_find::Pair;

/// What has been found of strips up to a row. They are numbered as they begin.
#[derive(Drop)]
pub struct StripRows {
    row: u32,
    strips: Vec<Strip>,
    numbers: Vec<u32>,
    pairs: Vec<Pair>,
    lost: Vec<Run>,
    fresh: Vec<Run>,
}

impl StripRows {
    /// What is found in row 0, which has no runs, where rows have so many cells.
    pub fn new(alloc: Global, cells: u32) -> Result<StripRows, NoMemory>
        ensures cells { IfOk result (λ s. cells_of s ≡ cells) }
        ensures strips { IfOk result (λ s. (colour : ℕ → ℕ → ℕ) → ((c : ℕ) → colour 0 c ≡ 0) → IsSwept colour 0 s) }
    {
        Ok(StripRows {
            row: 0,
            strips: Vec::new(alloc),
            numbers: vec![in alloc; 0; cells as usize]?,
            pairs: Vec::new(alloc),
            lost: Vec::new(alloc),
            fresh: Vec::new(alloc),
        })
    }

    /// Goes up one row, with runs of the row that was last and of the new one: at least those that only one of them
    /// has and their neighbours in the new row. Past 2^32 rows or strips it is want of memory.
    pub fn step(&mut self, old: &[Run], new: &[Run]) -> Result<(), NoMemory>
        requires old { LieInRow (cells_of self.old) old.now }
        requires new { LieInRow (cells_of self.old) new.now }
        ensures cells { OnOk result (cells_of self.new ≡ cells_of self.old) }
        ensures swept { OnOk result ((colour : ℕ → ℕ → ℕ) (y : ℕ) → IsSwept colour y self.old
            → IsChange colour y old.now new.now
            → IsSwept colour (y + 1) self.new) }
        ensures numbers { OnOk result (KeepNumbers (strips_of self.old) (strips_of self.new)) }
    {
        let row = next(self.row)?;
        let Ok(first) = u32::try_from(self.strips.len()) else {
            return Err(NoMemory);
        };
        missing(old, new, &mut self.lost)?;
        missing(new, old, &mut self.fresh)?;
        let numbers = &mut self.numbers;
        pair_upon(numbers, first, &self.lost, &self.fresh, &mut self.pairs)?;
        end_strips(&mut self.strips, &self.lost, numbers, row);
        begin_strips(&mut self.strips, &self.fresh, numbers, row)?;
        pair_beside(numbers, first, new, &mut self.pairs)?;
        self.row = row;
        Ok(())
    }

    /// The number of the strip to which the run belongs that begins at this cell of the last row.
    pub fn strip_at(&self, left: u32) -> u32
        requires { left < cells_of self.now }
        ensures { (colour : ℕ → ℕ → ℕ) (y : ℕ) → IsSwept colour y self.now
            → (r : Run) → r.left ≡ left → IsRun (colour y) r → IsOpenAt colour y (strips_of self.now) result r }
    {
        self.numbers[left as usize]
    }

    /// The strips and the pairs of them that touch, where the last row and all above it have no runs.
    pub fn finish(self) -> Strips
        ensures numbers { result.strips.items ≡ strips_of self }
        ensures strips { (colour : ℕ → ℕ → ℕ) (y : ℕ) → IsSwept colour y self → ((z c : ℕ) → y ≤ z → colour z c ≡ 0)
            → AreStrips colour result.strips.items }
        ensures touching { (colour : ℕ → ℕ → ℕ) (y : ℕ) → IsSwept colour y self → ((z c : ℕ) → y ≤ z → colour z c ≡ 0)
            → AreTouching result.strips.items result.pairs.items }
    {
        let StripRows {
            row: _,
            strips,
            numbers: _,
            pairs,
            lost: _,
            fresh: _,
        } = self;
        Strips { strips, pairs }
    }
}
