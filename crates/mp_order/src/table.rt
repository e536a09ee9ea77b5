//! Tables of numbers.

ghost use Rattle.std.specs.Prelude.{◌≡◌, ℕ, ◌<◌, ◌≤◌, slice_index, replicate, Contains, IfOk};
ghost use Rattle.mp_order.specs.Tables.{Lifted};

use mp_base::List;
use std::alloc::{AllocError, Global};

/// The number at an index, 0 past the end.
pub fn read(numbers: &[u32], index: usize) -> u32
    ensures { result ≡ slice_index numbers.now index }
{
    if index < numbers.len() {
        numbers[index]
    } else {
        0
    }
}

/// The same in a wider table.
pub fn read_wide(numbers: &List<u64>, index: usize) -> u64
    ensures { result ≡ slice_index numbers.now index }
{
    let numbers = numbers.as_slice();
    if index < numbers.len() {
        numbers[index]
    } else {
        0
    }
}

pub fn zeros(alloc: Global, count: usize) -> Result<List<u32>, AllocError>
    ensures { IfOk result (λ numbers. numbers ≡ replicate count 0) }
{
    let vec = Vec::from_elem(alloc, 0u32, count)?;
    Ok(List::from_vec(vec))
}

pub fn wide_zeros(alloc: Global, count: usize) -> Result<List<u64>, AllocError>
    ensures { IfOk result (λ numbers. numbers ≡ replicate count 0) }
{
    let vec = Vec::from_elem(alloc, 0u64, count)?;
    Ok(List::from_vec(vec))
}

/// Lifts the number at an index to a value, where it is lower.
pub fn lift(numbers: &mut List<u64>, index: u32, value: u64)
    ensures { Lifted (λ i k. (i ≡ index) × (k ≡ value)) numbers.old numbers.new }
{
    let at = index as usize;
    if at < numbers.len() && read_wide(numbers, at) < value {
        numbers.put(at, value);
    }
}

/// The same at each of some indices.
pub fn lift_all(numbers: &mut List<u64>, indices: &[u32], value: u64)
    ensures { Lifted (λ i k. Contains indices.now i × (k ≡ value)) numbers.old numbers.new }
{
    for index in indices {
        lift(numbers, *index, value);
    }
}

/// The greatest of the numbers at some indices, 0 where there are none.
pub fn greatest(numbers: &[u32], indices: &[u32]) -> u32
    ensures bound { (i : ℕ) → Contains indices.now i → slice_index numbers.now i ≤ result }
    ensures met { 0 < result → (i : ℕ) × Contains indices.now i × (slice_index numbers.now i ≡ result) }
{
    let mut highest = 0;
    for index in indices {
        let number = read(numbers, *index as usize);
        if highest < number {
            highest = number;
        }
    }
    highest
}
