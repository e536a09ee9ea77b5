//! Numbers of classes, and ends in order.

ghost use Rattle.std.specs.Prelude.{◌⊎◌, ◌↔◌, AllPairs, Contains, ℕ, ◌≡◌, ◌<◌, ◌≤◌, ◌+◌, ◌∷◌, [], length, get_or};
ghost use Rattle.std.specs.Prelude.{IfOk, IfSome};
ghost use Rattle.std.specs.Prelude.{IfNone};
ghost use Rattle.fabric.specs.Numbers.{AreClassNumbers};

use mp_base::{List, NoMemory};
use std::alloc::Global;

// A number for each class, and how many there are.
#[derive(Drop)]
pub(crate) struct Classes {
    pub(crate) numbers: List<u32>,
    pub(crate) count: u32,
}

// Numbers of the classes of which each thing's least one is given.
pub(crate) fn number(alloc: Global, least: &[u32]) -> Result<Classes, NoMemory>
    requires below { (k : ℕ) → k < length least.now → get_or least.now k 0 ≤ k }
    requires few { length least.now < 67_108_864 }
    requires roots { (k : ℕ) → k < length least.now → get_or least.now (get_or least.now k 0) 0 ≡ get_or least.now k 0 }
    ensures { IfOk result (λ c. AreClassNumbers least.now c.numbers c.count) }
{
    let mut numbers = List::new(alloc);
    let mut count = 0;
    for i in 0..least.len() {
        let root = least[i] as usize;
        if root == i {
            numbers.push(count)?;
            count += 1;
        } else {
            let same = numbers.as_slice()[root];
            numbers.push(same)?;
        }
    }
    Ok(Classes { numbers, count })
}

// A lesser and a greater number.
fn ascending(alloc: Global, low: u32, high: u32) -> Result<List<u32>, NoMemory>
    ensures { IfOk result (λ v. v ≡ low ∷ high ∷ []) }
{
    let mut ends = List::new(alloc);
    ends.push(low)?;
    ends.push(high)?;
    Ok(ends)
}

fn one(alloc: Global, number: u32) -> Result<List<u32>, NoMemory>
    ensures { IfOk result (λ v. v ≡ number ∷ []) }
{
    let mut ends = List::new(alloc);
    ends.push(number)?;
    Ok(ends)
}

// Two numbers in ascending order, or the one that both are.
pub(crate) fn two(alloc: Global, a: u32, b: u32) -> Result<List<u32>, NoMemory>
    ensures ascending { IfOk result (λ v. AllPairs (λ j k. j < k) v) }
    ensures all { IfOk result (λ v. (x : ℕ) → Contains v x ↔ ((x ≡ a) ⊎ (x ≡ b))) }
{
    if a < b {
        ascending(alloc, a, b)
    } else if b < a {
        ascending(alloc, b, a)
    } else {
        one(alloc, a)
    }
}
