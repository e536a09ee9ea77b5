//! Laws of placements, of rectangles and of polygons, for the proofs of crates above.

ghost use Rattle.cif_place.specs.Laws.{HereLeaves, AfterPlaces, AfterHolds, OneBox, OneWire};
ghost use Rattle.cif_place.specs.Laws.{FillingsArePlaced, FillingsAreFromPlaces};

use poly_split::laws::fillings_are_laid;

/// `Placement::here` leaves rectangles where they are, one placement after another lays them as both do in turn, and it
/// shifts by at most the sum of what both shift.
pub fn placements_compose()
    ensures here { HereLeaves }
    ensures after { AfterPlaces }
    ensures held { AfterHolds }
{}

/// The rectangles of a box and of a wire are determined by their scale and their numbers.
pub fn rectangles_are_determined()
    ensures boxes { OneBox }
    ensures wires { OneWire }
{}

/// What fills a polygon of axis edges, placed as calls place shapes, fills the polygon whose points are placed so; and
/// what fills that polygon is placed of something that fills the first.
pub fn polygons_are_placed()
    ensures placed { FillingsArePlaced }
    ensures from { FillingsAreFromPlaces }
{
    fillings_are_laid();
}
