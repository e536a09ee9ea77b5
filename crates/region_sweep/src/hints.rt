//! Where a search among marks begins.

ghost use Rattle.std.specs.Prelude.{◌<◌, ◌^◌, length};

use mp_base::{List, NoMemory};
use std::alloc::Global;

// The axis cut into buckets of 2^shift from the first mark on, about as many as marks, so that few marks stand in one.
// Who searches looks whether a hint serves; so nothing is promised of it, and a wrong one would cost time alone.
#[derive(Drop)]
pub(crate) struct Hints {
    // How many marks stand before each bucket. There are twice as many buckets as marks at the most, so that this takes
    // about as much memory as the marks.
    starts: List<u32>,
    first: i64,
    shift: u32,
}

impl Hints {
    /// Hints for marks in order, fewer than 2^32.
    pub(crate) fn new(alloc: Global, marks: &[i64]) -> Result<Hints, NoMemory>
        requires { length marks.now < 2 ^ 32 }
    {
        let (first, range) = match (marks.first(), marks.last()) {
            (Some(first), Some(last)) => (*first, last.abs_diff(*first)),
            _ => (0, 0),
        };
        let shift = shift_of(range, marks.len() as u64);
        let mut starts = List::new(alloc);
        for (index, mark) in marks.iter().enumerate() {
            let bucket = bucket_of(*mark, first, shift);
            while starts.len() <= bucket {
                starts.push(index as u32)?;
            }
        }
        starts.push(marks.len() as u32)?;
        Ok(Hints {
            starts,
            first,
            shift,
        })
    }

    /// Between which marks a place may fall: how many stand before its bucket, and before the next.
    pub(crate) fn window(&self, place: i64) -> (usize, usize) {
        if place < self.first {
            return (0, 0);
        }
        let bucket = bucket_of(place, self.first, self.shift);
        (self.start(bucket), self.start(bucket.saturating_add(1)))
    }

    // Past the last bucket there is no hint.
    fn start(&self, bucket: usize) -> usize {
        match self.starts.as_slice().get(bucket) {
            Some(start) => *start as usize,
            None => usize::MAX,
        }
    }
}

fn bucket_of(place: i64, first: i64, shift: u32) -> usize {
    place.abs_diff(first).wrapping_shr(shift) as usize
}

// The least shift that leaves at most twice as many buckets as marks.
fn shift_of(range: u64, marks: u64) -> u32 {
    match (range / marks.saturating_mul(2).saturating_add(1)).checked_ilog2() {
        Some(power) => power + 1,
        None => 0,
    }
}
