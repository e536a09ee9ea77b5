//! The marks that cut an axis into cells.

ghost use Rattle.std.specs.Prelude.{◌≡◌, ◌↔◌, ◌+◌, ◌<◌, ◌≤◌, ◌^◌, ℤ, IfOk, Contains, length};
ghost use Rattle.region_sweep.specs.Grid.{Ascending, Surrounds, cell_of, start_of};

use crate::hints::Hints;
use mp_base::NoMemory;
use std::alloc::Global;

const MOST_CELLS: usize = (1 << 31) - 1;

/// Different coordinates in order, so few that there are less than 2^31 cells. They cut the axis into cells, each
/// from its mark up to the next; cell 0 is before the first mark.
#[derive(Drop)]
pub(crate) struct Axis {
    marks: Vec<i64>,
    hints: Hints,
    ghost ascending: { Ascending marks.items },
    ghost few: { length marks.items + 1 < 2 ^ 31 },
}

impl Axis {
    /// The axis with these marks.
    pub(crate) fn new(alloc: Global, mut coordinates: Vec<i64>) -> Result<Axis, NoMemory>
        ensures { IfOk result (λ axis. (z : ℤ) → Contains coordinates.items z ↔ Contains axis.marks.items z) }
    {
        coordinates.sort_unstable();
        coordinates.dedup();
        if coordinates.len() >= MOST_CELLS {
            return Err(NoMemory);
        }
        let hints = Hints::new(alloc, coordinates.as_slice())?;
        Ok(Axis {
            marks: coordinates,
            hints,
        })
    }

    /// How many cells there are.
    pub(crate) fn cells(&self) -> u32
        ensures { result ≡ length self.now.marks.items + 1 }
    {
        self.marks.len() as u32 + 1
    }

    /// The cell of a place.
    pub(crate) fn cell(&self, place: i64) -> u32
        ensures { result ≡ cell_of self.now.marks.items place }
    {
        let (from, to) = self.stretch(place);
        let inside = self.marks.as_slice()[from..to].partition_point(|mark| *mark <= place);
        (from + inside) as u32
    }

    // The marks that a search for the place has to look at: as hinted if that serves, else all.
    fn stretch(&self, place: i64) -> (usize, usize)
        ensures { Surrounds self.now.marks.items place result.0 result.1 }
    {
        let (from, to) = self.hints.window(place);
        let count = self.marks.len();
        if from <= to
            && to <= count
            && (from == 0 || self.marks[from - 1] <= place)
            && (to == count || place < self.marks[to])
        {
            return (from, to);
        }
        (0, count)
    }

    /// Where a cell above 0 begins.
    pub(crate) fn start(&self, cell: u32) -> i64
        requires some { 0 < cell }
        requires within { cell ≤ length self.now.marks.items }
        ensures { result ≡ start_of self.now.marks.items cell }
    {
        self.marks[cell as usize - 1]
    }
}
