//! The runs of a row.

ghost use Rattle.std.specs.Prelude.{◌≡◌, ◌≢◌, ◌↔◌, IsTrue, OnOk};
ghost use Rattle.kept_runs.specs.Borders.{AreBorders, with_run};

use crate::borders::{fill, put};
use cell_set::CellSet;
use mask_runs::Run;
use mp_base::NoMemory;
use std::alloc::{AllocError, Global};

/// The colours of the cells of a row, of which 0 is none: a set of the borders between cells of different colours,
/// and the colour from each border on. It takes some nine bits a cell, and no call asks for memory but `new` and the
/// list that `collect` fills.
#[derive(Drop)]
pub struct KeptRuns {
    borders: CellSet,
    colours: Vec<u8>,
    ghost kept: { AreBorders borders colours.items },
}

impl KeptRuns {
    ghost use Rattle.std.specs.Prelude.{◌≡◌, ◌≢◌, ◌↔◌, ◌⊎◌, ℕ, ◌+◌, ◌<◌, ◌≤◌, ◌^◌, true, false, IfOk, IfSome};
    ghost use Rattle.std.specs.Prelude.{IsNone, IsTrue, length};
    ghost use Rattle.cell_set.specs.Sets.{has};
    ghost use Rattle.mask_runs.specs.Runs.{IsRun, AreRuns};
    ghost use Rattle.kept_runs.specs.Borders.{noted, windowed, IsBorderTo, IsBorderAfter, Begins};
    ghost use Rattle.kept_runs.specs.Kept.{colours_of, width_of};

    /// A row of so many cells without colour.
    pub fn new(alloc: Global, cells: u32) -> Result<KeptRuns, NoMemory>
        requires some { 0 < cells }
        requires small { cells < 2 ^ 31 }
        ensures cells { IfOk result (λ k. width_of k ≡ cells) }
        ensures blank { IfOk result (λ k. (c : ℕ) → colours_of k c ≡ 0) }
    {
        let mut borders = CellSet::new(alloc, cells)?;
        borders.insert(0);
        let colours = vec![in alloc; 0; cells as usize]?;
        Ok(KeptRuns { borders, colours })
    }

    fn cells(&self) -> u32
        ensures { result ≡ width_of self.now }
    {
        self.colours.len() as u32
    }

    /// Gives the cells from `from` up to `to` a colour. Its time is that of the borders which it moves, times the
    /// logarithm of the cells, by 64.
    pub fn paint(&mut self, from: u32, to: u32, colour: u8)
        requires order { from < to }
        requires within { to ≤ width_of self.old }
        ensures inside { (c : ℕ) → from ≤ c → c < to → colours_of self.new c ≡ colour }
        ensures beside { (c : ℕ) → (c < from) ⊎ (to ≤ c) → colours_of self.new c ≡ colours_of self.old c }
        ensures cells { width_of self.new ≡ width_of self.old }
    {
        let begins = self.begins(from, colour);
        if self.cells() <= to {
            fill(
                &mut self.borders,
                &mut self.colours,
                from,
                to,
                colour,
                begins,
            );
            return;
        }
        let after = self.colour_at(to);
        fill(
            &mut self.borders,
            &mut self.colours,
            from,
            to,
            colour,
            begins,
        );
        put(
            &mut self.borders,
            &mut self.colours,
            to,
            after,
            differ(after, colour),
        );
    }

    // Whether cells of that colour begin at the cell, if it has the colour.
    fn begins(&self, cell: u32, colour: u8) -> bool
        requires { cell < width_of self.now }
        ensures { IsTrue result ↔ Begins (colours_of self.now) cell colour }
    {
        if cell == 0 {
            return true;
        }
        differ(self.colour_at(cell - 1), colour)
    }

    // The colour of a cell.
    fn colour_at(&self, cell: u32) -> u8
        requires { cell < width_of self.now }
        ensures { result ≡ colours_of self.now cell }
    {
        self.noted_at(self.border_to(cell))
    }

    // The colour that is noted at a border.
    fn noted_at(&self, border: u32) -> u8
        requires { border < length self.now.colours.items }
        ensures { result ≡ noted self.now.colours.items border }
    {
        self.colours[border as usize]
    }

    // The last border at a cell or before it.
    fn border_to(&self, cell: u32) -> u32
        requires { cell < width_of self.now }
        ensures { IsBorderTo self.now.borders cell result }
    {
        match self.borders.last_before(cell + 1) {
            Some(border) => border,
            None => 0,
        }
    }

    // The first border past a cell, or the end of the row.
    fn border_after(&self, cell: u32) -> u32
        requires { cell < width_of self.now }
        ensures { IsBorderAfter self.now.borders (width_of self.now) cell result }
    {
        match self.borders.first_from(cell + 1) {
            Some(border) => border,
            None => self.cells(),
        }
    }

    /// The run that has a cell, or none where the cell has no colour. Its time is the logarithm of the cells, by 64.
    pub fn run_at(&self, cell: u32) -> Option<Run>
        requires { cell < width_of self.now }
        ensures some { IfSome result (λ r. IsRun (colours_of self.now) r × (r.left ≤ cell) × (cell < r.right)) }
        ensures none { IsNone result ↔ colours_of self.now cell ≡ 0 }
    {
        let left = self.border_to(cell);
        let colour = self.noted_at(left);
        if colour == 0 {
            return None;
        }
        Some(Run {
            left,
            right: self.border_after(cell),
            colour,
        })
    }

    /// The runs among the cells from `from` up to `to`, from left to right, in place of those that the list has; a
    /// run ends where these cells end. Its time is that of the borders there, times the logarithm of the cells, by
    /// 64. Where memory is wanting the list may hold any of the runs.
    pub fn collect(&self, from: u32, to: u32, runs: &mut Vec<Run>) -> Result<(), NoMemory>
        requires { to ≤ width_of self.now }
        ensures { IfOk result (λ _. AreRuns (windowed from to (colours_of self.now)) runs.new.items) }
    {
        runs.clear();
        if to <= from {
            return Ok(());
        }
        let mut left = from;
        let mut colour = self.colour_at(from);
        let mut right = self.border_after(from);
        while right < to {
            add(
                runs,
                Run {
                    left,
                    right,
                    colour,
                },
            )?;
            left = right;
            colour = self.noted_at(left);
            right = self.border_after(left);
        }
        add(
            runs,
            Run {
                left,
                right: to,
                colour,
            },
        )?;
        Ok(())
    }
}

// Whether the colours are different.
fn differ(colour: u8, other: u8) -> bool
    ensures { IsTrue result ↔ colour ≢ other }
{
    colour != other
}

// Adds the run, unless it has no colour.
fn add(runs: &mut Vec<Run>, run: Run) -> Result<(), AllocError>
    ensures { OnOk result (runs.new.items ≡ with_run runs.old.items run) }
{
    if run.colour == 0 {
        return Ok(());
    }
    runs.push(run)?;
    Ok(())
}
