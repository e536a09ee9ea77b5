//! Sifting: each column in turn goes where segments crowd least, the others closing up.

use crate::band::Band;
use crate::lists::{count, get, put, uncount};
use crate::standing::Standing;
use std::alloc::{AllocError, Global};

// How often all columns are sifted at most, and at least.
const MOST_PASSES: usize = 60;

const LEAST_PASSES: usize = 2;

// What all passes may take, where one takes as much as there are columns by segments.
const WORK: usize = 3_000_000;

// What so many segments over one place cost: crowds much, so that places are evened out.
fn crowding(segments: usize) -> usize {
    let square = segments.wrapping_mul(segments);
    square.wrapping_mul(square)
}

// How many segments lie over each place of the other columns, once these have closed up. Of the others' segments, with
// the place more for which each keeps its row, and without; of the column's own, how many begin at or before a place,
// and how many end at or behind the place before; and what all places before it cost, were the column behind them.
#[derive(Drop)]
struct Sweep {
    kept: Vec<usize>,
    over: Vec<usize>,
    begun: Vec<usize>,
    unended: Vec<usize>,
    before: Vec<usize>,
    // One more than the last column that had a segment.
    owner: Vec<usize>,
}

fn clear(entries: &mut [usize]) {
    for entry in entries.iter_mut() {
        *entry = 0;
    }
}

// From changes at each place to what lies there.
fn sum_up(entries: &mut [usize]) {
    let mut sum: usize = 0;
    for entry in entries.iter_mut() {
        sum = sum.wrapping_add(*entry);
        *entry = sum;
    }
}

// The same from the end.
fn sum_down(entries: &mut [usize]) {
    let mut sum: usize = 0;
    for entry in entries.iter_mut().rev() {
        sum = sum.wrapping_add(*entry);
        *entry = sum;
    }
}

// A place among those of the others, when the one that was taken out closes up.
fn closed(place: usize, out: usize) -> usize {
    if place > out {
        place.saturating_sub(1)
    } else {
        place
    }
}

impl Sweep {
    fn new(alloc: Global, band: &Band) -> Result<Sweep, AllocError> {
        let places = band.columns.saturating_add(3);
        Ok(Sweep {
            kept: Vec::from_elem(alloc, 0, places)?,
            over: Vec::from_elem(alloc, 0, places)?,
            begun: Vec::from_elem(alloc, 0, places)?,
            unended: Vec::from_elem(alloc, 0, places)?,
            before: Vec::from_elem(alloc, 0, places)?,
            owner: Vec::from_elem(alloc, 0, band.segments)?,
        })
    }

    fn clear(&mut self) {
        clear(self.kept.as_mut_slice());
        clear(self.over.as_mut_slice());
        clear(self.begun.as_mut_slice());
        clear(self.unended.as_mut_slice());
    }

    // The column's own segments, as far as others mark them.
    fn add_own(&mut self, band: &Band, standing: &Standing, column: usize) {
        let out = get(standing.place.as_slice(), column);
        for segment in band.at(column) {
            let mut first = usize::MAX;
            let mut last = 0;
            for other in band.marks(*segment) {
                if *other != column {
                    let place = closed(get(standing.place.as_slice(), *other), out);
                    first = first.min(place);
                    last = last.max(place);
                }
            }
            if first <= last {
                count(self.begun.as_mut_slice(), first);
                count(self.unended.as_mut_slice(), last.saturating_add(1));
            }
            put(
                self.owner.as_mut_slice(),
                *segment,
                column.saturating_add(1),
            );
        }
    }

    // The segments of the others alone.
    fn add_others(&mut self, standing: &Standing, column: usize) {
        let out = get(standing.place.as_slice(), column);
        let owner = column.saturating_add(1);
        for (segment, first) in standing.first.as_slice().iter().enumerate() {
            let last = get(standing.last.as_slice(), segment);
            if *first <= last && get(self.owner.as_slice(), segment) != owner {
                let first = closed(*first, out);
                let last = closed(last, out);
                count(self.kept.as_mut_slice(), first);
                uncount(self.kept.as_mut_slice(), last.saturating_add(2));
                count(self.over.as_mut_slice(), first);
                uncount(self.over.as_mut_slice(), last.saturating_add(1));
            }
        }
    }

    fn sum(&mut self, columns: usize) {
        sum_up(self.kept.as_mut_slice());
        sum_up(self.over.as_mut_slice());
        sum_up(self.begun.as_mut_slice());
        sum_down(self.unended.as_mut_slice());
        let mut sum: usize = 0;
        for place in 0..columns {
            put(self.before.as_mut_slice(), place, sum);
            let over = get(self.kept.as_slice(), place).wrapping_add(get(
                self.begun.as_slice(),
                place,
            ));
            sum = sum.wrapping_add(crowding(over));
        }
    }

    // Where the column costs least; where it is, if nowhere less.
    fn best(&self, band: &Band, column: usize, now: usize) -> usize {
        let own = band.at(column).len();
        let mut behind: usize = 0;
        let mut best = now;
        let mut least = usize::MAX;
        for place in (band.held..band.columns).rev() {
            let left = get(self.over.as_slice(), place.saturating_sub(1)).wrapping_add(own);
            let right = get(self.over.as_slice(), place).wrapping_add(own);
            let cost = get(self.before.as_slice(), place)
                .wrapping_add(crowding(left))
                .wrapping_add(crowding(right))
                .wrapping_add(behind);
            if cost < least || cost == least && place == now {
                least = cost;
                best = place;
            }
            let over = get(self.kept.as_slice(), place).wrapping_add(get(
                self.unended.as_slice(),
                place,
            ));
            behind = behind.wrapping_add(crowding(over));
        }
        best
    }

    // Sifts one column, and tells whether it moved.
    fn sift(&mut self, band: &Band, standing: &mut Standing, column: usize) -> bool {
        let now = get(standing.place.as_slice(), column);
        self.clear();
        self.add_own(band, standing, column);
        self.add_others(standing, column);
        self.sum(band.columns);
        let best = self.best(band, column, now);
        if best == now {
            return false;
        }
        standing.take(band, column, best);
        true
    }
}

// How often to sift a band.
fn passes(band: &Band) -> usize {
    let pass = band.columns.saturating_mul(band.segments);
    if pass == 0 {
        return LEAST_PASSES;
    }
    (WORK / pass).min(MOST_PASSES).max(LEAST_PASSES)
}

/// Sifts all columns that move, until none moves or it takes too long.
pub(crate) fn sift(alloc: Global, band: &Band, standing: &mut Standing) -> Result<(), AllocError> {
    let mut sweep = Sweep::new(alloc, band)?;
    for _ in 0..passes(band) {
        let mut moves: u64 = 0;
        for column in standing.order(alloc)? {
            if column >= band.held && sweep.sift(band, standing, column) {
                moves = moves.saturating_add(1);
            }
        }
        if moves == 0 {
            return Ok(());
        }
    }
    Ok(())
}
