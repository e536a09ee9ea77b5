//! From words to what stands in a fabric.

use fabric::{Line, Mark, Segment, Side};
use std::alloc::{AllocError, Global};
use tile_cells::Tile;

/// A thing that a fabric is asked to take.
#[derive(Clone, Copy)]
pub(crate) enum Thing {
    Segment(Segment),
    Line(Line),
    Mark(Mark),
}

/// A word, and the numbers after it.
#[derive(Drop)]
pub(crate) struct Words<'a> {
    pub(crate) first: &'a [u8],
    pub(crate) numbers: Vec<u32>,
}

/// The number that a word of digits is.
pub(crate) fn number(word: &[u8]) -> u32 {
    let mut n: u32 = 0;
    for byte in word {
        n = n
            .wrapping_mul(10)
            .wrapping_add(u32::from(byte.wrapping_sub(b'0')));
    }
    n
}

/// The words of a part of a line.
pub(crate) fn words_of(alloc: Global, part: &[u8]) -> Result<Words<'_>, AllocError> {
    let mut first: &[u8] = b"";
    let mut numbers = Vec::new(alloc);
    for word in part.split(|byte| *byte == b' ') {
        if word.is_empty() {} else if first.is_empty() {
            first = word;
        } else {
            numbers.push(number(word))?;
        }
    }
    Ok(Words { first, numbers })
}

fn line(side: Side, numbers: &[u32]) -> Option<Thing> {
    match numbers {
        [column, first_band, last_band] => Some(Thing::Line(Line {
            column: *column,
            side,
            first_band: *first_band,
            last_band: *last_band,
        })),
        _ => None,
    }
}

fn mark(tile: Tile, numbers: &[u32]) -> Option<Thing> {
    match numbers {
        [band, row, column] => Some(Thing::Mark(Mark {
            tile,
            band: *band,
            row: *row,
            column: *column,
        })),
        _ => None,
    }
}

fn segment(numbers: &[u32]) -> Option<Thing> {
    match numbers {
        [band, row, first, last] => Some(Thing::Segment(Segment {
            band: *band,
            row: *row,
            first: *first,
            last: *last,
        })),
        _ => None,
    }
}

/// What the words ask for.
pub(crate) fn thing_of(first: &[u8], numbers: &[u32]) -> Option<Thing> {
    match first {
        b"S" => segment(numbers),
        b"L" => line(Side::L, numbers),
        b"R" => line(Side::R, numbers),
        b"TapL" => mark(Tile::TapL, numbers),
        b"TapR" => mark(Tile::TapR, numbers),
        b"Tran" => mark(Tile::Tran, numbers),
        b"PullUp" => mark(Tile::PullUp, numbers),
        b"Under" => mark(Tile::Under, numbers),
        _ => None,
    }
}
