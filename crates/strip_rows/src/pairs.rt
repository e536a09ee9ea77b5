//! Pairs of strips that touch.

ghost use Rattle.std.specs.Prelude.{◌≡◌, ◌<◌, ◌≤◌, ◌+◌, length, All, OnOk, IfOk};
ghost use Rattle.strip_rows.specs.Missing.{AreApart};
ghost use Rattle.strip_rows.specs.Steps.{number, in_order, Overlap, IsAddedIf, AreUpon, AreNew, AreBeside};

use mask_runs::Run;
use mp_base::NoMemory;
use std::alloc::AllocError;
use union_find::Pair;

/// The number after this one.
pub(crate) fn next(number: u32) -> Result<u32, NoMemory>
    ensures { IfOk result (λ n. n ≡ number + 1) }
{
    match number.checked_add(1) {
        Some(next) => Ok(next),
        None => Err(NoMemory),
    }
}

/// Adds the pairs of a strip that ends, of a run of the row below, and one that begins above it. The first that
/// begins has this number.
pub(crate) fn pair_upon(
    numbers: &[u32],
    first: u32,
    lost: &[Run],
    fresh: &[Run],
    pairs: &mut Vec<Pair>,
) -> Result<(), NoMemory>
    requires known { All (λ r. r.left < length numbers.now) lost.now }
    requires lost { AreApart lost.now }
    requires fresh { AreApart fresh.now }
    ensures { OnOk result (AreUpon numbers.now first lost.now fresh.now (length lost.now)
        (length fresh.now) pairs.old.items pairs.new.items) }
{
    let mut i = 0;
    let mut j = 0;
    let mut second = first;
    while i < lost.len() {
        if j >= fresh.len() {
            return Ok(());
        }
        let below = lost[i];
        let above = fresh[j];
        let pair = Pair {
            a: numbers[below.left as usize],
            b: second,
        };
        add_if_upon(below, above, pair, pairs)?;
        if below.right <= above.right {
            i += 1;
        } else {
            j += 1;
            second = next(second)?;
        }
    }
    Ok(())
}

fn add_if_upon(below: Run, above: Run, pair: Pair, pairs: &mut Vec<Pair>) -> Result<(), AllocError>
    ensures { OnOk result (IsAddedIf (Overlap below above) pair pairs.old.items pairs.new.items) }
{
    if below.right <= above.left {
        return Ok(());
    }
    if above.right <= below.left {
        return Ok(());
    }
    pairs.push(pair)?;
    Ok(())
}

/// Adds the pairs of neighbours in a row of which one begins there, which has this number or a higher one.
pub(crate) fn pair_beside(
    numbers: &[u32],
    first: u32,
    runs: &[Run],
    pairs: &mut Vec<Pair>,
) -> Result<(), AllocError>
    requires { All (λ r. r.left < length numbers.now) runs.now }
    ensures { OnOk result (AreBeside numbers.now first runs.now (length runs.now) pairs.old.items pairs.new.items) }
{
    for i in 1..runs.len() {
        add_if_beside(numbers, first, runs[i - 1], runs[i], pairs)?;
    }
    Ok(())
}

fn add_if_beside(
    numbers: &[u32],
    first: u32,
    left: Run,
    right: Run,
    pairs: &mut Vec<Pair>,
) -> Result<(), AllocError>
    requires left { left.left < length numbers.now }
    requires right { right.left < length numbers.now }
    ensures { OnOk result (IsAddedIf (AreNew numbers.now first left right)
        (in_order (number numbers.now left) (number numbers.now right)) pairs.old.items pairs.new.items) }
{
    if left.right != right.left {
        return Ok(());
    }
    let a = numbers[left.left as usize];
    let b = numbers[right.left as usize];
    if a.max(b) < first {
        return Ok(());
    }
    pairs.push(Pair {
        a: a.min(b),
        b: a.max(b),
    })?;
    Ok(())
}
