//! New colours where a row changes.

ghost use Rattle.std.specs.Prelude.{◌≡◌, ℕ, ◌<◌, ◌≤◌, All};
ghost use Rattle.kept_runs.specs.Kept.{width_of};
ghost use Rattle.region_sweep.specs.Repainting.{HaveColours, IsRepainted};

use kept_runs::KeptRuns;
use mask_runs::Run;

/// Gives the cells of the runs their colours.
pub(crate) fn repaint(runs: &[Run], kept: &mut KeptRuns)
    requires wide { All (λ s. s.left < s.right) runs.now }
    requires within { All (λ s. s.right ≤ width_of kept.old) runs.now }
    ensures painted { (colour : ℕ → ℕ) → HaveColours colour runs.now
        → IsRepainted colour kept.old kept.new runs.now }
    ensures cells { width_of kept.new ≡ width_of kept.old }
{
    for run in runs {
        kept.paint(run.left, run.right, run.colour);
    }
}
