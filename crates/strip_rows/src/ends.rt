//! Where strips end and begin.

ghost use Rattle.std.specs.Prelude.{◌≡◌, ◌<◌, ◌≤◌, [], ◌∷◌, ◌++◌, length, All, OnOk};
ghost use Rattle.strip_rows.specs.Missing.{AreApart};
ghost use Rattle.strip_rows.specs.Steps.{begun_at, IsEndedAt, AreEnded, HaveBegun};

use crate::strip::Strip;
use mask_runs::Run;
use mp_base::NoMemory;
use std::alloc::AllocError;

/// Ends the strips of these runs below the row.
pub(crate) fn end_strips(strips: &mut Vec<Strip>, lost: &[Run], numbers: &[u32], row: u32)
    requires { All (λ r. r.left < length numbers.now) lost.now }
    ensures { AreEnded numbers.now lost.now (length lost.now) row strips.old.items strips.new.items }
{
    for run in lost {
        end_strip(strips, numbers[run.left as usize], row);
    }
}

fn end_strip(strips: &mut Vec<Strip>, number: u32, row: u32)
    ensures { IsEndedAt number row strips.old.items strips.new.items }
{
    if (number as usize) < strips.len() {
        strips[number as usize].high = row;
    }
}

/// Begins strips with these runs in the row.
pub(crate) fn begin_strips(
    strips: &mut Vec<Strip>,
    fresh: &[Run],
    numbers: &mut Vec<u32>,
    row: u32,
) -> Result<(), NoMemory>
    requires known { All (λ r. r.left < length numbers.old.items) fresh.now }
    requires apart { AreApart fresh.now }
    ensures { OnOk result (HaveBegun fresh.now
        (length fresh.now) row strips.old.items strips.new.items numbers.old.items numbers.new.items) }
{
    for run in fresh {
        let Ok(number) = u32::try_from(strips.len()) else {
            return Err(NoMemory);
        };
        begin_strip(strips, *run, row)?;
        numbers[run.left as usize] = number;
    }
    Ok(())
}

fn begin_strip(strips: &mut Vec<Strip>, run: Run, row: u32) -> Result<(), AllocError>
    ensures { OnOk result (strips.new.items ≡ strips.old.items ++ begun_at row run ∷ []) }
{
    strips.push(Strip {
        left: run.left,
        right: run.right,
        low: row,
        high: 0,
        colour: run.colour,
    })?;
    Ok(())
}
