//! Symbols.

ghost use Rattle.std.specs.Prelude.{◌≡◌, ◌≤◌, All, IfOk};
ghost use Rattle.std.specs.List.Sorted.{IsStrictlySortedBy};
ghost use Rattle.lam_geom.specs.Moves.{IsNearRect};
ghost use Rattle.slice_symbols.specs.Drawn.{AreSymbolsOf, symbol_of, symbols_of_both};
ghost use Rattle.slice_symbols.specs.Heights.{AreUsable, heights};
ghost use Rattle.slice_symbols.specs.Standing.{AreParted, IsOfBand, standing_cmp};

use crate::bands::Bands;
use crate::order::each_once;
use crate::standing::{Standing, are_alike, in_order, stand};
use lam_geom::{Rect, Shape};
use mp_base::{List, NoMemory};
use std::alloc::Global;

/// Rectangles, and the heights at which all of them are drawn, in half-units: each is raised by so much.
#[derive(Drop)]
pub struct Symbol {
    pub shapes: Shape,
    pub heights: List<i64>,
}

// The rectangles that stand alike in each band, as they stand in the first; the others are put to the rest.
fn share(
    alloc: Global,
    standing: &[Standing],
    bands: Bands,
    rest: &mut Shape,
) -> Result<Shape, NoMemory>
    requires usable { AreUsable bands }
    requires some { 1 ≤ bands.count }
    requires of_bands { All (IsOfBand bands) standing.now }
    requires ascending { IsStrictlySortedBy standing_cmp standing.now }
    ensures { IfOk result (λ common. AreParted bands standing.now rest.old common rest.new) }
{
    let mut common = List::new(alloc);
    let mut at = 0;
    while at < standing.len() {
        let s = standing[at];
        if are_alike(standing, at, bands.count, s.first) {
            common.push(s.first)?;
            at += bands.count as usize;
        } else {
            rest.push(s.own(bands))?;
            at += 1;
        }
    }
    Ok(common)
}

// The heights of so many bands.
fn heights(alloc: Global, bands: Bands, count: u32) -> Result<List<i64>, NoMemory>
    requires { count ≤ 64 }
    ensures { IfOk result (λ those. those ≡ heights bands count) }
{
    let mut heights = List::new(alloc);
    for band in 0..count {
        heights.push(bands.height_of(band))?;
    }
    Ok(heights)
}

// The symbol of rectangles that are drawn in so many bands.
fn make_symbol(alloc: Global, shapes: Shape, bands: Bands, count: u32) -> Result<Symbol, NoMemory>
    requires { count ≤ 64 }
    ensures { IfOk result (λ s. s ≡ symbol_of bands count shapes) }
{
    let heights = heights(alloc, bands, count)?;
    Ok(Symbol { shapes, heights })
}

// The symbol of the common ones, if there are any, and that of the rest.
fn both(alloc: Global, common: Shape, rest: Shape, bands: Bands) -> Result<List<Symbol>, NoMemory>
    requires usable { AreUsable bands }
    ensures { IfOk result (λ symbols. symbols ≡ symbols_of_both bands common rest) }
{
    let mut symbols = List::new(alloc);
    if common.as_slice().is_empty() {
        symbols.push(make_symbol(alloc, rest, bands, 1)?)?;
        return Ok(symbols);
    }
    symbols.push(make_symbol(alloc, common, bands, bands.count)?)?;
    symbols.push(make_symbol(alloc, rest, bands, 1)?)?;
    Ok(symbols)
}

/// The symbols that draw the rectangles: one has those that stand alike in each band, as they stand in the first, and
/// is drawn once for each band, if any do, and one has the others. Both have each rectangle once, in the order of their
/// layers, and then of their left, lower, right and upper sides.
///
/// # Errors
///
/// `NoMemory`.
pub fn symbols_of(alloc: Global, rects: &[Rect], bands: Bands) -> Result<List<Symbol>, NoMemory>
    requires usable { AreUsable bands }
    requires some { 1 ≤ bands.count }
    requires near { All IsNearRect rects.now }
    ensures { IfOk result (AreSymbolsOf rects.now bands) }
{
    let (standing, mut rest) = stand(alloc, rects, bands)?;
    let standing = in_order(standing);
    let common = share(alloc, standing.as_slice(), bands, &mut rest)?;
    both(alloc, common, each_once(rest), bands)
}
