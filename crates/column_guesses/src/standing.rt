//! Columns in their places, and what that costs.

use crate::band::Band;
use crate::lists::{count, get, put, uncount};
use std::alloc::{AllocError, Global};

/// The place of each column, from 0 on, and the first and the last place where each segment is marked.
#[derive(Drop)]
pub(crate) struct Standing {
    pub place: Vec<usize>,
    pub first: Vec<usize>,
    pub last: Vec<usize>,
}

/// The rows that segments want, and how long they are.
#[derive(Clone, Copy)]
pub(crate) struct Price {
    pub rows: usize,
    pub wire: usize,
}

impl Price {
    /// Whether this is less than another.
    pub fn is_below(self, other: Price) -> bool {
        self.rows < other.rows || self.rows == other.rows && self.wire < other.wire
    }
}

// Where a place goes when a column is taken from one place to another.
fn moved(place: usize, from: usize, to: usize) -> usize {
    if place == from {
        to
    } else if from < place && place <= to {
        place.saturating_sub(1)
    } else if to <= place && place < from {
        place.saturating_add(1)
    } else {
        place
    }
}

fn move_all(places: &mut [usize], from: usize, to: usize) {
    for place in places.iter_mut() {
        *place = moved(*place, from, to);
    }
}

impl Standing {
    /// All columns in the order of their numbers.
    pub fn new(alloc: Global, band: &Band) -> Result<Standing, AllocError> {
        let mut place = Vec::new(alloc);
        for column in 0..band.columns {
            place.push(column)?;
        }
        let mut standing = Standing {
            place,
            first: Vec::from_elem(alloc, 0, band.segments)?,
            last: Vec::from_elem(alloc, 0, band.segments)?,
        };
        standing.measure(band);
        Ok(standing)
    }

    /// The columns that move, in this order.
    pub fn put(&mut self, band: &Band, order: &[usize]) {
        for (i, column) in order.iter().enumerate() {
            put(
                self.place.as_mut_slice(),
                *column,
                band.held.saturating_add(i),
            );
        }
        self.measure(band);
    }

    // The first and the last place of a segment.
    fn measure_segment(&mut self, band: &Band, segment: usize) {
        let mut first = usize::MAX;
        let mut last = 0;
        for column in band.marks(segment) {
            let place = get(self.place.as_slice(), *column);
            first = first.min(place);
            last = last.max(place);
        }
        put(self.first.as_mut_slice(), segment, first);
        put(self.last.as_mut_slice(), segment, last);
    }

    fn measure(&mut self, band: &Band) {
        for segment in 0..band.segments {
            self.measure_segment(band, segment);
        }
    }

    /// Takes a column to a place; those between close up.
    pub fn take(&mut self, band: &Band, column: usize, to: usize) {
        let from = get(self.place.as_slice(), column);
        move_all(self.place.as_mut_slice(), from, to);
        move_all(self.first.as_mut_slice(), from, to);
        move_all(self.last.as_mut_slice(), from, to);
        for segment in band.at(column) {
            self.measure_segment(band, *segment);
        }
    }

    /// What the columns cost. A segment keeps its row for one place more than it is long.
    pub fn price(&self, alloc: Global, band: &Band) -> Result<Price, AllocError> {
        let mut changes = Vec::from_elem(alloc, 0, band.columns.saturating_add(2))?;
        let mut wire: usize = 0;
        for (segment, first) in self.first.as_slice().iter().enumerate() {
            let last = get(self.last.as_slice(), segment);
            if *first <= last {
                count(changes.as_mut_slice(), *first);
                uncount(changes.as_mut_slice(), last.saturating_add(2));
                wire = wire.saturating_add(last.saturating_sub(*first));
            }
        }
        let mut rows = 0;
        let mut over: usize = 0;
        for change in &changes {
            over = over.wrapping_add(*change);
            rows = rows.max(over);
        }
        Ok(Price { rows, wire })
    }

    /// The columns in the order of their places.
    pub fn order(&self, alloc: Global) -> Result<Vec<usize>, AllocError> {
        let mut order = Vec::from_elem(alloc, 0, self.place.len())?;
        for (column, place) in self.place.as_slice().iter().enumerate() {
            put(order.as_mut_slice(), *place, column);
        }
        Ok(order)
    }
}
