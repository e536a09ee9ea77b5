//! The turns of a path's columns.

use crate::band::Band;
use crate::greedy::greedy;
use crate::lists::{get, put};
use crate::pulls::by_pulls;
use crate::sifting::sift;
use crate::standing::Standing;
use column_turns::Turns;
use mp_base::List;
use path_form::DataPath;
use std::alloc::{AllocError, Global};

/// Turns of the columns that nets have of their own: those of the control, and those of each slice.
#[derive(Drop)]
pub struct Guess {
    pub control: Turns,
    pub slices: Turns,
}

// The columns that move in this order, sifted.
fn sifted(alloc: Global, band: &Band, order: &[usize]) -> Result<Standing, AllocError> {
    let mut standing = Standing::new(alloc, band)?;
    standing.put(band, order);
    sift(alloc, band, &mut standing)?;
    Ok(standing)
}

// The one of two that costs less, the first if both cost as much.
fn better(
    alloc: Global,
    band: &Band,
    one: Standing,
    other: Standing,
) -> Result<Standing, AllocError> {
    let price = one.price(alloc, band)?;
    if other.price(alloc, band)?.is_below(price) {
        Ok(other)
    } else {
        Ok(one)
    }
}

// The places of a band's columns.
fn guess_standing(alloc: Global, band: &Band) -> Result<Standing, AllocError> {
    let standing = Standing::new(alloc, band)?;
    let order = greedy(alloc, band)?;
    let cut = sifted(alloc, band, order.as_slice())?;
    let standing = better(alloc, band, standing, cut)?;
    let order = by_pulls(alloc, band)?;
    let pulled = sifted(alloc, band, order.as_slice())?;
    better(alloc, band, standing, pulled)
}

// A number as lists of turns have it.
fn number(index: usize) -> u32 {
    u32::try_from(index).unwrap_or(0)
}

fn numbers(alloc: Global, indices: &[usize]) -> Result<List<u32>, AllocError> {
    let mut numbers = Vec::new(alloc);
    for index in indices {
        numbers.push(number(*index))?;
    }
    Ok(List::from_vec(numbers))
}

// The turns by which the columns that move come to their places.
fn turns(alloc: Global, band: &Band) -> Result<Turns, AllocError> {
    let standing = guess_standing(alloc, band)?;
    let moving = band.columns.saturating_sub(band.held);
    let mut to = Vec::from_elem(alloc, 0, moving)?;
    let mut from = Vec::from_elem(alloc, 0, moving)?;
    for rank in 0..moving {
        let place = get(standing.place.as_slice(), band.held.saturating_add(rank));
        let turn = place.saturating_sub(band.held);
        put(to.as_mut_slice(), rank, turn);
        put(from.as_mut_slice(), turn, rank);
    }
    Ok(Turns {
        to: numbers(alloc, to.as_slice())?,
        from: numbers(alloc, from.as_slice())?,
    })
}

/// Guesses turns by which segments want few rows: of the orders of nets, of least cuts and of barycentres, the last two
/// sifted, in each band the one that wants the fewest.
///
/// # Errors
/// Want of memory.
pub fn guess_turns(alloc: Global, path: &DataPath) -> Result<Guess, AllocError> {
    let control = Band::control(alloc, path)?;
    let slices = Band::slices(alloc, path)?;
    Ok(Guess {
        control: turns(alloc, &control)?,
        slices: turns(alloc, &slices)?,
    })
}
