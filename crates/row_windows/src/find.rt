//! The windows around the cells that may change.

ghost use Rattle.std.specs.Prelude.{◌≡◌, ℕ, ◌+◌, ◌<◌, [], ◌∷◌, ◌++◌, IfOk, OnOk};
ghost use Rattle.kept_runs.specs.Kept.{colours_of, width_of};
ghost use Rattle.row_windows.specs.Windows.{AreFit, AreApart, ChangeAt, TellChange, IsGuarded};
ghost use Rattle.row_windows.specs.Reaching.{IsOpened, IsRightOf};

use crate::reach::{left_of, right_of};
use crate::window::Window;
use kept_runs::KeptRuns;
use mask_runs::Run;
use mp_base::NoMemory;
use std::alloc::AllocError;

// How many cells the next run may lie behind the current window's runs without a window of its own: these cells are
// collected sooner than the ends of two windows are looked up.
const NEAR: u32 = 32;

/// The windows of a row, from left to right, around the cells that these runs have, from left to right too, of any
/// colours. Each window reaches over two of the row's runs beside such cells, if they lie next to one another, so that
/// the runs in the windows, in this row and in the next, tell all that changes. Its time is that of the runs times the
/// logarithm of the cells.
pub fn find_windows(
    kept: &KeptRuns,
    runs: &[Run],
    windows: &mut Vec<Window>,
) -> Result<(), NoMemory>
    requires fit { AreFit (width_of kept.now) runs.now }
    requires guarded { IsGuarded (width_of kept.now) (colours_of kept.now) }
    ensures apart { IfOk result (λ _. AreApart (width_of kept.now) windows.new.items) }
    ensures tell { IfOk result (λ _. (colour : ℕ → ℕ → ℕ) (y : ℕ) → ((c : ℕ) → colour y c ≡ colours_of kept.now c)
        → ChangeAt runs.now (colour y) (colour (y + 1)) → TellChange colour y windows.new.items) }
{
    windows.clear();
    if runs.is_empty() {
        return Ok(());
    }
    let mut current = Window {
        from: left_of(kept, runs[0].left),
        to: runs[0].right,
    };
    for next in 1..runs.len() {
        current = add_run(kept, current, runs[next], windows)?;
    }
    add(windows, closed(kept, current))?;
    Ok(())
}

// Adds the current window if the run lies well beyond it, and gives the current one then, whose `to` is where the runs
// end that it has.
fn add_run(
    kept: &KeptRuns,
    current: Window,
    run: Run,
    windows: &mut Vec<Window>,
) -> Result<Window, NoMemory>
    requires current { current.to < width_of kept.now }
    requires run { run.left < width_of kept.now }
    requires guarded { IsGuarded (width_of kept.now) (colours_of kept.now) }
    ensures { IfOk result (λ next.
        IsOpened (colours_of kept.now) (width_of kept.now) current run windows.old.items windows.new.items next) }
{
    let joined = Window {
        from: current.from,
        to: current.to.max(run.right),
    };
    if run.left.saturating_sub(current.to) <= NEAR {
        return Ok(joined);
    }
    let window = closed(kept, current);
    let from = left_of(kept, run.left);
    if from <= window.to {
        return Ok(joined);
    }
    add(windows, window)?;
    Ok(Window {
        from,
        to: run.right,
    })
}

// The window with the row's runs to the right of its own.
fn closed(kept: &KeptRuns, current: Window) -> Window
    requires current { current.to < width_of kept.now }
    requires guarded { IsGuarded (width_of kept.now) (colours_of kept.now) }
    ensures from { result.from ≡ current.from }
    ensures to { IsRightOf (colours_of kept.now) current.to result.to }
    ensures within { result.to < width_of kept.now }
{
    Window {
        from: current.from,
        to: right_of(kept, current.to),
    }
}

fn add(windows: &mut Vec<Window>, window: Window) -> Result<(), AllocError>
    ensures { OnOk result (windows.new.items ≡ windows.old.items ++ window ∷ []) }
{
    windows.push(window)?;
    Ok(())
}
