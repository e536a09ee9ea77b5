//! Tables by number.

ghost use Rattle.std.specs.Prelude.{◌≡◌, ◌≢◌, ◌<◌, ◌≤◌, ℕ, Some, None, OnOk};
ghost use Rattle.std.specs.BTreeMap.{get};
ghost use Rattle.std.specs.Ordering.{nat_cmp};

use std::alloc::AllocError;
use std::collections::BTreeMap;

pub(crate) type Table<V> = BTreeMap<u64, V>;

/// The entry of a number.
pub(crate) fn found<V: Copy>(table: &BTreeMap<u64, V>, number: u64) -> Option<V>
    ensures { result ≡ get nat_cmp table.now number }
{
    table.get(&number).copied()
}

/// Sets the entry of a number.
pub(crate) fn set<V: Drop>(
    table: &mut BTreeMap<u64, V>,
    number: u64,
    entry: V,
) -> Result<(), AllocError>
    ensures here { OnOk result (get nat_cmp table.new number ≡ Some entry) }
    ensures others { OnOk result ((k : ℕ) → k ≢ number → get nat_cmp table.new k ≡ get nat_cmp table.old k) }
{
    table.insert(number, entry)?;
    Ok(())
}

/// Drops the entries from a number on.
pub(crate) fn cut<V: Drop>(table: &mut BTreeMap<u64, V>, number: u64) -> Result<(), AllocError>
    ensures below { OnOk result ((k : ℕ) → k < number → get nat_cmp table.new k ≡ get nat_cmp table.old k) }
    ensures above { OnOk result ((k : ℕ) → number ≤ k → get nat_cmp table.new k ≡ None) }
{
    table.split_off(&number)?;
    Ok(())
}
