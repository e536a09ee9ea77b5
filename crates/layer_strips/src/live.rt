//! The strips of one row, by where they end on the right.

ghost use Rattle.std.specs.Prelude.{◌≡◌, ◌≢◌, ◌<ℤ◌, ◌≤ℤ◌, ℤ, Some, None, OnOk};
ghost use Rattle.std.specs.BTreeMap.{get};
ghost use Rattle.std.specs.Ordering.{int_cmp};
ghost use Rattle.layer_strips.specs.Sweep.{IsNext};

use std::alloc::AllocError;
use std::collections::BTreeMap;
use std::ops::Bound;

/// Sets the strip that ends there.
pub(crate) fn put(live: &mut BTreeMap<i64, u32>, right: i64, index: u32) -> Result<(), AllocError>
    ensures here { OnOk result (get int_cmp live.new right ≡ Some index) }
    ensures others { OnOk result ((k : ℤ) → k ≢ right → get int_cmp live.new k ≡ get int_cmp live.old k) }
{
    live.insert(right, index)?;
    Ok(())
}

/// Takes out the strip that ends there.
pub(crate) fn cut(live: &mut BTreeMap<i64, u32>, right: i64)
    ensures here { get int_cmp live.new right ≡ None }
    ensures others { (k : ℤ) → k ≢ right → get int_cmp live.new k ≡ get int_cmp live.old k }
{
    live.remove(&right);
}

/// The first strip that ends at the place or beyond it.
pub(crate) fn from(live: &BTreeMap<i64, u32>, place: i64) -> Option<(i64, u32)>
    ensures { IsNext (get int_cmp live.now) (λ k. place ≤ℤ k) result }
{
    match live.range(place..).next() {
        Some((right, index)) => Some((*right, *index)),
        None => None,
    }
}

/// The first strip that ends beyond the place.
pub(crate) fn after(live: &BTreeMap<i64, u32>, place: i64) -> Option<(i64, u32)>
    ensures { IsNext (get int_cmp live.now) (λ k. place <ℤ k) result }
{
    match live
        .range((Bound::Excluded(place), Bound::Unbounded))
        .next()
    {
        Some((right, index)) => Some((*right, *index)),
        None => None,
    }
}
