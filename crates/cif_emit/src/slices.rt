//! The symbols of a chip.

ghost use Rattle.std.specs.Prelude.{◌≡◌, ◌<◌, ◌∷◌, ◌↔◌, All, IfOk, IsTrue};
ghost use Rattle.slice_symbols.specs.Drawn.{AreSymbolsOf};
ghost use Rattle.cif_emit.specs.Emittable.{AreBands, AreBandsAbove, CanShare, IsEmittable, bands_above, chip_rects};

use fabric::{Chip, Fabric};
use lam_geom::{Rect, Shape};
use mp_base::{List, NoMemory};
use slice_symbols::{Bands, Symbol, symbols_of};
use std::alloc::Global;

// The half-units of a lambda.
const LAMBDA: u32 = 500;

// A band in which nothing stands.
const NONE: Bands = Bands {
    low: 1_099_511_627_776,
    height: LAMBDA,
    count: 1,
};

// Whether all bands have so many rows.
fn are_alike(bands: &[u32], rows: u32) -> bool
    ensures { IsTrue result ↔ All (λ other. other ≡ rows) bands.now }
{
    bands.iter().all(|other| *other == rows)
}

// Whether two to 64 bands of `rows` rows each stand above one of `lowest` rows, and none is too high.
fn can_share(lowest: u32, rows: u32, upper: &[u32]) -> bool
    ensures { IsTrue result ↔ CanShare (lowest ∷ upper.now) lowest rows upper.now }
{
    upper.len() >= 2
        && upper.len() <= 64
        && lowest < 100_000
        && rows < 5_000
        && are_alike(upper, rows)
}

// So many bands of these rows, above one of `lowest` rows.
fn bands_above(lowest: u32, rows: u32, many: u32) -> Bands
    requires low { lowest < 100_000 }
    requires lower { rows < 5_000 }
    ensures { result ≡ bands_above lowest rows many }
{
    Bands {
        low: i64::from(LAMBDA * (12 * lowest + 36)),
        height: LAMBDA * (12 * rows + 36),
        count: many,
    }
}

/// The bands above the lowest, where there are several, of one height, and they are neither too high nor too many.
pub(crate) fn bands_of(fabric: &Fabric) -> Bands
    ensures { AreBandsAbove fabric.now.rows result }
{
    let Some((lowest, upper)) = fabric.rows().split_first() else {
        return NONE;
    };
    let Some(rows) = upper.first() else {
        return NONE;
    };
    if can_share(*lowest, *rows, upper) {
        bands_above(*lowest, *rows, upper.len() as u32)
    } else {
        NONE
    }
}

/// What a chip draws: its fabric, and the rectangles beside it.
pub(crate) fn rects_of(alloc: Global, chip: &Chip) -> Result<Shape, NoMemory>
    ensures { IfOk result (λ rects. rects ≡ chip_rects chip.now) }
{
    let mut rects = chip.fabric.shape(alloc)?.into_vec();
    rects.extend_from_slice(chip.extra.as_slice())?;
    Ok(List::from_vec(rects))
}

/// The symbols of a chip: one has what stands alike in each of the bands, and one has the rest.
pub(crate) fn symbols_for(
    alloc: Global,
    chip: &Chip,
    bands: Bands,
) -> Result<List<Symbol>, NoMemory>
    requires emittable { IsEmittable (chip_rects chip.now) chip.now.labels }
    requires bands { AreBands bands }
    ensures { IfOk result (AreSymbolsOf (chip_rects chip.now) bands) }
{
    let rects = rects_of(alloc, chip)?;
    symbols_of(alloc, rects.as_slice(), bands)
}
