//! How far runs reach.

ghost use Rattle.std.specs.Prelude.{◌≡◌, ◌<◌, ◌≤◌};
ghost use Rattle.kept_runs.specs.Kept.{colours_of, width_of};
ghost use Rattle.row_windows.specs.Windows.{IsGuarded};
ghost use Rattle.row_windows.specs.Reaching.{ReachesLeft, ReachesRight, IsLeftOf, IsRightOf};

use kept_runs::KeptRuns;

/// The left end of the two runs of the row that lie next to one another before a cell, as far as there are such runs.
pub(crate) fn left_of(kept: &KeptRuns, cell: u32) -> u32
    requires { cell ≤ width_of kept.now }
    ensures { IsLeftOf (colours_of kept.now) cell result }
{
    let middle = reach_left(kept, cell);
    reach_left(kept, middle)
}

/// The right end of the two runs of the row from a cell on.
pub(crate) fn right_of(kept: &KeptRuns, cell: u32) -> u32
    requires cell { cell < width_of kept.now }
    requires guarded { IsGuarded (width_of kept.now) (colours_of kept.now) }
    ensures right { IsRightOf (colours_of kept.now) cell result }
    ensures within { result < width_of kept.now }
{
    let middle = reach_right(kept, cell);
    reach_right(kept, middle)
}

// Where the run begins that has the cell before this one, or this cell if no run has it.
fn reach_left(kept: &KeptRuns, cell: u32) -> u32
    requires { cell ≤ width_of kept.now }
    ensures left { ReachesLeft (colours_of kept.now) cell result }
    ensures order { result ≤ cell }
{
    if cell == 0 {
        return 0;
    }
    match kept.run_at(cell - 1) {
        Some(run) => run.left,
        None => cell,
    }
}

// Where the run ends that has the cell, or the cell if no run has it.
fn reach_right(kept: &KeptRuns, cell: u32) -> u32
    requires cell { cell < width_of kept.now }
    requires guarded { IsGuarded (width_of kept.now) (colours_of kept.now) }
    ensures right { ReachesRight (colours_of kept.now) cell result }
    ensures within { result < width_of kept.now }
{
    match kept.run_at(cell) {
        Some(run) => run.right,
        None => cell,
    }
}
