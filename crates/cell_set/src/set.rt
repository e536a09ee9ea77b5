//! Sets of cells.

ghost use Rattle.cell_set.specs.Tree.{AreSound};

use crate::tree::{clear, first_from, last_before, mark};
use mp_base::NoMemory;
use std::alloc::Global;

/// A set of cells: a tree of words of 64 bits, a bit for each cell, and for each word but the first, whether it has a
/// bit. It takes an eighth of a byte a cell, and each call the time of the logarithm of the cells, by 64.
#[derive(Drop)]
pub struct CellSet {
    words: Vec<u64>,
    ghost sound: { AreSound words.items },
}

impl CellSet {
    ghost use Rattle.std.specs.Prelude.{◌≡◌, ◌≢◌, ℕ, ◌<◌, ◌≤◌, ◌^◌, true, false, IfOk, IfSome, IfNone};
    ghost use Rattle.cell_set.specs.Sets.{has, room_of, IsLastCell, IsFirstCell};

    /// A set with room for more than so many cells, of which it has none.
    pub fn new(alloc: Global, cells: u32) -> Result<CellSet, NoMemory>
        requires { cells < 2 ^ 31 }
        ensures empty { IfOk result (λ s. (c : ℕ) → has s c ≡ false) }
        ensures room { IfOk result (λ s. cells < room_of s) }
    {
        let words = vec![in alloc; 0; cells as usize / 63 + 1]?;
        Ok(CellSet { words })
    }

    /// Puts a cell into the set.
    pub fn insert(&mut self, cell: u32)
        requires { cell < room_of self.old }
        ensures own { has self.new cell ≡ true }
        ensures others { (c : ℕ) → c ≢ cell → has self.new c ≡ has self.old c }
        ensures room { room_of self.new ≡ room_of self.old }
    {
        let item = self.words.len() - 1 + cell as usize;
        mark(&mut self.words, item);
    }

    /// Takes a cell out of the set.
    pub fn remove(&mut self, cell: u32)
        requires { cell < room_of self.old }
        ensures own { has self.new cell ≡ false }
        ensures others { (c : ℕ) → c ≢ cell → has self.new c ≡ has self.old c }
        ensures room { room_of self.new ≡ room_of self.old }
    {
        let item = self.words.len() - 1 + cell as usize;
        clear(&mut self.words, item);
    }

    /// The last cell of the set before this one.
    pub fn last_before(&self, cell: u32) -> Option<u32>
        requires { cell < room_of self.now }
        ensures some { IfSome result (IsLastCell self.now cell) }
        ensures none { IfNone result ((c : ℕ) → c < cell → has self.now c ≡ false) }
    {
        let leaf = self.words.len() - 1;
        let item = last_before(&self.words, leaf + cell as usize)?;
        if item < leaf {
            return None;
        }
        Some((item - leaf) as u32)
    }

    /// The first cell of the set from this one on.
    pub fn first_from(&self, cell: u32) -> Option<u32>
        requires { cell < room_of self.now }
        ensures some { IfSome result (IsFirstCell self.now cell) }
        ensures none { IfNone result ((c : ℕ) → cell ≤ c → has self.now c ≡ false) }
    {
        let leaf = self.words.len() - 1;
        let item = first_from(&self.words, leaf + cell as usize)?;
        Some((item - leaf) as u32)
    }
}
