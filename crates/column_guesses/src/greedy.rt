//! An order of columns by the least cut: next always the column by which the fewest segments come to lie over the gap
//! behind it.

use crate::band::Band;
use crate::lists::{get, put};
use std::alloc::{AllocError, Global};

// How many marks each segment still lacks, and 1 where it has begun.
#[derive(Drop)]
struct Cut {
    lacking: Vec<usize>,
    begun: Vec<usize>,
}

impl Cut {
    fn new(alloc: Global, band: &Band) -> Result<Cut, AllocError> {
        let mut lacking = Vec::new(alloc);
        for segment in 0..band.segments {
            lacking.push(band.marks(segment).len())?;
        }
        Ok(Cut {
            lacking,
            begun: Vec::from_elem(alloc, 0, band.segments)?,
        })
    }

    fn pass(&mut self, band: &Band, column: usize) {
        for segment in band.at(column) {
            put(self.begun.as_mut_slice(), *segment, 1);
            let lacking = get(self.lacking.as_slice(), *segment);
            put(
                self.lacking.as_mut_slice(),
                *segment,
                lacking.saturating_sub(1),
            );
        }
    }

    // How a column would change the cut, the best least.
    fn rate(&self, band: &Band, column: usize) -> Rate {
        let segments = band.at(column);
        let mut opened: usize = 0;
        let mut kept: usize = 0;
        for segment in segments {
            if get(self.begun.as_slice(), *segment) == 0 {
                opened = opened.saturating_add(1);
            }
            if get(self.lacking.as_slice(), *segment) != 1 {
                kept = kept.saturating_add(1);
            }
        }
        Rate {
            growth: opened
                .saturating_add(kept)
                .saturating_add(band.segments.saturating_sub(segments.len())),
            opened,
            fresh: band
                .segments
                .saturating_add(opened)
                .saturating_sub(segments.len()),
        }
    }
}

// How many segments a column opens more than it closes, how many it opens, and how many that are open it lacks, each
// from some number on.
#[derive(Clone, Copy)]
struct Rate {
    growth: usize,
    opened: usize,
    fresh: usize,
}

impl Rate {
    fn is_below(self, other: Rate) -> bool {
        if self.growth != other.growth {
            return self.growth < other.growth;
        }
        if self.opened != other.opened {
            return self.opened < other.opened;
        }
        self.fresh < other.fresh
    }
}

// Where the best of these columns is among them.
fn best(cut: &Cut, band: &Band, rest: &[usize]) -> usize {
    let mut best = 0;
    let mut least = cut.rate(band, get(rest, 0));
    for (i, column) in rest.iter().enumerate() {
        let rate = cut.rate(band, *column);
        if rate.is_below(least) {
            best = i;
            least = rate;
        }
    }
    best
}

/// The columns that move, in an order by the least cut.
pub(crate) fn greedy(alloc: Global, band: &Band) -> Result<Vec<usize>, AllocError> {
    let mut cut = Cut::new(alloc, band)?;
    for column in 0..band.held {
        cut.pass(band, column);
    }
    let mut rest = Vec::new(alloc);
    for column in band.held..band.columns {
        rest.push(column)?;
    }
    let mut order = Vec::new(alloc);
    for _ in band.held..band.columns {
        let i = best(&cut, band, rest.as_slice());
        if i < rest.len() {
            let column = rest.remove(i);
            cut.pass(band, column);
            order.push(column)?;
        }
    }
    Ok(order)
}
