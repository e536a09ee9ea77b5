//! An order of columns by barycentres: each goes where the other marks of its segments are on the mean, again and again.

use crate::band::Band;
use crate::lists::{get, put};
use crate::standing::Standing;
use std::alloc::{AllocError, Global};

// How often all columns go where they are pulled.
const ROUNDS: u32 = 60;

// What a place counts in a pull, and a segment with two marks.
const PLACE: usize = 256;

const WEIGHT: usize = 4096;

// Where a column is pulled.
#[derive(Clone, Copy)]
struct Pull {
    column: usize,
    to: usize,
}

// The sum of the places of each segment's marks.
fn sum_places(band: &Band, standing: &Standing, sums: &mut [usize]) {
    for segment in 0..band.segments {
        let mut sum: usize = 0;
        for column in band.marks(segment) {
            sum = sum.saturating_add(get(standing.place.as_slice(), *column));
        }
        put(sums, segment, sum);
    }
}

// Segments with few marks pull more. A column moves but two thirds of the way, so that orders don't swing.
fn target(band: &Band, standing: &Standing, sums: &[usize], column: usize) -> usize {
    let place = get(standing.place.as_slice(), column);
    let own = place.saturating_mul(PLACE);
    let mut pull: usize = 0;
    let mut weights: usize = 0;
    for segment in band.at(column) {
        let others = band.marks(*segment).len().saturating_sub(1);
        if others > 0 {
            let sum = get(sums, *segment).saturating_sub(place);
            let weight = WEIGHT / others;
            let mean = sum.saturating_mul(PLACE) / others;
            pull = pull.saturating_add(mean.saturating_mul(weight));
            weights = weights.saturating_add(weight);
        }
    }
    if weights == 0 {
        own
    } else {
        let mean = (pull / weights).saturating_mul(7);
        mean.saturating_add(own.saturating_mul(3)) / 10
    }
}

fn columns_of(alloc: Global, pulls: &[Pull]) -> Result<Vec<usize>, AllocError> {
    let mut columns = Vec::new(alloc);
    for pull in pulls {
        columns.push(pull.column)?;
    }
    Ok(columns)
}

/// The columns that move, in the best of the orders by barycentres.
pub(crate) fn by_pulls(alloc: Global, band: &Band) -> Result<Vec<usize>, AllocError> {
    let mut standing = Standing::new(alloc, band)?;
    let mut least = standing.price(alloc, band)?;
    let mut sums = Vec::from_elem(alloc, 0, band.segments)?;
    let mut pulls = Vec::new(alloc);
    for column in band.held..band.columns {
        pulls.push(Pull { column, to: 0 })?;
    }
    let mut best = columns_of(alloc, pulls.as_slice())?;
    for _ in 0..ROUNDS {
        sum_places(band, &standing, sums.as_mut_slice());
        for p in pulls.as_mut_slice().iter_mut() {
            p.to = target(band, &standing, sums.as_slice(), p.column);
        }
        pulls.sort_by_key(|p| p.to)?;
        let order = columns_of(alloc, pulls.as_slice())?;
        standing.put(band, order.as_slice());
        let price = standing.price(alloc, band)?;
        if price.is_below(least) {
            least = price;
            best = order;
        }
    }
    Ok(best)
}
