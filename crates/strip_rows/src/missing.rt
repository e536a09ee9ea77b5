//! Runs of one row that another lacks.

ghost use Rattle.std.specs.Prelude.{◌≡◌, ◌<◌, ◌≤◌, length, OnOk};
ghost use Rattle.strip_rows.specs.Missing.{AreApart, LieBehind, IsAhead, IsAddedIfMissing, AreMissing};

use mask_runs::Run;
use std::alloc::AllocError;

/// The runs, in their order, that are not among the others.
pub(crate) fn missing(runs: &[Run], among: &[Run], out: &mut Vec<Run>) -> Result<(), AllocError>
    requires runs { AreApart runs.now }
    requires among { AreApart among.now }
    ensures { OnOk result (AreMissing runs.now among.now out.new.items) }
{
    out.clear();
    let mut place = 0;
    for run in runs {
        place = seek(among, place, run.left);
        add_if_missing(among, place, *run, out)?;
    }
    Ok(())
}

// The first place from one on whose run begins at that cell or right of it.
fn seek(runs: &[Run], from: usize, left: u32) -> usize
    requires within { from ≤ length runs.now }
    requires behind { LieBehind runs.now from left }
    ensures within { result ≤ length runs.now }
    ensures behind { LieBehind runs.now result left }
    ensures ahead { IsAhead runs.now result left }
{
    let mut place = from;
    while place < runs.len() {
        if left <= runs[place].left {
            return place;
        }
        place += 1;
    }
    place
}

// Adds the run unless it stands at the only place where it can.
fn add_if_missing(
    among: &[Run],
    place: usize,
    run: Run,
    out: &mut Vec<Run>,
) -> Result<(), AllocError>
    requires apart { AreApart among.now }
    requires within { place ≤ length among.now }
    requires behind { LieBehind among.now place run.left }
    requires ahead { IsAhead among.now place run.left }
    ensures { OnOk result (IsAddedIfMissing among.now run out.old.items out.new.items) }
{
    if place < among.len() {
        let other = among[place];
        if other == run {
            return Ok(());
        }
    }
    out.push(run)?;
    Ok(())
}
