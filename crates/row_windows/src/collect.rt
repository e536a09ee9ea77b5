//! The runs in windows.

ghost use Rattle.std.specs.Prelude.{◌≡◌, IfOk};
ghost use Rattle.mask_runs.specs.Runs.{AreRuns};
ghost use Rattle.kept_runs.specs.Kept.{colours_of, width_of};
ghost use Rattle.row_windows.specs.Windows.{AreApart, seen};

use crate::window::Window;
use kept_runs::KeptRuns;
use mask_runs::Run;
use mp_base::NoMemory;

/// The runs of the row in the windows, from left to right, in place of those that the list has. `piece` is room for
/// those of one window.
pub fn collect_windows(
    kept: &KeptRuns,
    windows: &[Window],
    piece: &mut Vec<Run>,
    runs: &mut Vec<Run>,
) -> Result<(), NoMemory>
    requires { AreApart (width_of kept.now) windows.now }
    ensures { IfOk result (λ _. AreRuns (seen windows.now (colours_of kept.now)) runs.new.items) }
{
    runs.clear();
    for window in windows {
        kept.collect(window.from, window.to, piece)?;
        runs.append(piece)?;
    }
    Ok(())
}
