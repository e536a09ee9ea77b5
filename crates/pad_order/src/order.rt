//! Ports from the lowest to the highest.

ghost use Rattle.std.specs.Prelude.{◌≡◌, ◌≤◌, ◌<◌, ◌^◌, All, IfOk, IsPermutation, length};
ghost use Rattle.std.specs.List.Sorted.{IsNonDecreasingBy};
ghost use Rattle.pad_order.specs.Entries.{AreDistinct, AreTold, entries_from};

use crate::ports::Port;
use mp_base::List;
use std::alloc::{AllocError, Global};

/// The height of a port, and its number among those that are named.
#[derive(Clone, Copy, Debug)]
pub(crate) struct Entry {
    pub height: u32,
    pub number: u32,
}

fn entries_of(alloc: Global, ports: &[Port]) -> Result<List<Entry>, AllocError>
    requires few { length ports.now ≤ 2 ^ 20 }
    ensures { IfOk result (λ entries. entries ≡ entries_from 0 ports.now) }
{
    let mut entries = List::new(alloc);
    for index in 0..ports.len() {
        let height = ports[index].height;
        let number = index as u32;
        entries.push(Entry { height, number })?;
    }
    Ok(entries)
}

/// The ports from the lowest to the highest.
pub(crate) fn rising(alloc: Global, ports: &[Port]) -> Result<Vec<Entry>, AllocError>
    requires few { length ports.now ≤ 2 ^ 20 }
    ensures permuted { IfOk result (λ entries. IsPermutation (entries_from 0 ports.now) entries.items) }
    ensures ascending { IfOk result (λ entries. IsNonDecreasingBy (λ e. e.height) entries.items) }
{
    let entries = entries_of(alloc, ports)?;
    let mut sorted = entries.into_vec();
    sorted.sort_unstable_by_key(|entry| entry.height);
    Ok(sorted)
}

/// The place of each port among these, by its number.
pub(crate) fn places(alloc: Global, entries: &[Entry]) -> Result<Vec<u32>, AllocError>
    requires few { length entries.now ≤ 2 ^ 20 }
    requires inside { All (λ e. e.number < length entries.now) entries.now }
    requires distinct { AreDistinct entries.now }
    ensures long { IfOk result (λ places. length places.items ≡ length entries.now) }
    ensures told { IfOk result (λ places. AreTold places.items entries.now) }
{
    let mut places = vec![in alloc; 0; entries.len()]?;
    for place in 0..entries.len() {
        let number = entries[place].number as usize;
        places[number] = place as u32;
    }
    Ok(places)
}
