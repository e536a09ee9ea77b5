//! Numbers that take turns.

ghost use Rattle.std.specs.Prelude.{◌≡◌, ◌<◌, ◌^◌, [], slice_index};
ghost use Rattle.column_turns.specs.Turning as turning;

use mp_base::List;
use std::alloc::Global;

/// Where each number goes, and which number goes there. Where the lists don't undo each other, the numbers stay.
#[derive(Drop)]
pub struct Turns {
    pub to: List<u32>,
    pub from: List<u32>,
}

impl Turns {
    /// No turns: each number stays where it is.
    pub fn none(alloc: Global) -> Turns
        ensures to { result.to ≡ [] }
        ensures from { result.from ≡ [] }
    {
        Turns {
            to: List::new(alloc),
            from: List::new(alloc),
        }
    }
}

// The number at an index, 0 past the end.
fn read(numbers: &[u32], index: u32) -> u32
    ensures { result ≡ slice_index numbers.now index }
{
    let index = index as usize;
    if index < numbers.len() {
        numbers[index]
    } else {
        0
    }
}

// Whether a number goes to one below the count, and comes back.
fn returns(to: &[u32], from: &[u32], count: u32, number: u32) -> bool
    ensures { result ≡ turning.returns to.now from.now count number }
{
    let there = read(to, number);
    there < count && read(from, there) == number
}

// Whether all numbers below the count do.
fn all_return(to: &[u32], from: &[u32], count: u32) -> bool
    ensures { result ≡ turning.all_below (turning.returns to.now from.now count) count }
{
    for number in 0..count {
        if !returns(to, from, count, number) {
            return false;
        }
    }
    true
}

/// Whether each of the two lists undoes the other, below this count.
pub fn are_turns(turns: &Turns, count: u32) -> bool
    ensures { result ≡ turning.are_turns turns.now count }
{
    let to = turns.to.as_slice();
    let from = turns.from.as_slice();
    all_return(to, from, count) && all_return(from, to, count)
}

/// Where a number goes, if it is known whether the lists are turns.
pub fn turn(turns: &Turns, are: bool, number: u32, count: u32) -> u32
    requires { are ≡ turning.are_turns turns.now count }
    ensures value { result ≡ turning.turn turns.now count number }
{
    if are && number < count {
        read(turns.to.as_slice(), number)
    } else {
        number
    }
}
