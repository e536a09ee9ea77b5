//! Points: the points of polygons and of labels, scaled and placed.

ghost use Rattle.std.specs.Prelude.{◌≡◌, ◌*◌, ◌^◌, ◌*ℤ◌, ◌++◌, pos, All, map, IfOk, OnOk, IfSome, IfNone};
ghost use Rattle.std.specs.Bool.{OnTrue, OnFalse};
ghost use Rattle.lam_geom.specs.Inside.{sides};
ghost use Rattle.poly_split.specs.Splitting.{IsStraight};
ghost use Rattle.lam_geom.specs.declared.layer.Layer.TheVariants.{ND};
ghost use Rattle.cif_form.specs.Place.{dot};
ghost use Rattle.cif_form.specs.Walk.{IsWholePoint};
ghost use Rattle.cif_place.specs.Placing.{IsWithin, IsShortPoint, IsFitRatio, IsHeld, scale_of, rect_of, place_of};
ghost use Rattle.cif_place.specs.Pointing.{IsCornerAt, IsFarDotAt, backed_if, HasUnevenPoint, IsPlacedPoint};
ghost use Rattle.cif_place.specs.Pointing.{ArePlaced, IsDrawnPolygon, on_layer};

use crate::edges::Edges;
use crate::placement::Placement;
use crate::ratio::Ratio;
use lam_geom::{Layer, Point, Rect};
use mp_base::List;
use poly_split::cut;
use std::alloc::{AllocError, Global};

/// A point of these half-units where it is placed.
fn dot_at(placement: Placement, across: i128, up: i128) -> Edges
    requires held { IsHeld (2 ^ 104 * 8_000_000) placement }
    requires across { IsWithin (2 ^ 64) across }
    requires up { IsWithin (2 ^ 64) up }
    ensures { rect_of ND result ≡ place_of placement (dot across up) }
{
    placement.place(Edges {
        left: across,
        bottom: up,
        right: across,
        top: up,
    })
}

/// One less, where it is mirrored.
fn backed_if(flips: bool, edge: i64) -> i64
    requires { IsWithin (2 ^ 40) edge }
    ensures { result ≡ backed_if flips edge }
{
    if flips { edge - 1 } else { edge }
}

/// The lower left corner of the square to the upper right of a point of these half-units, where both are scaled and
/// placed: nothing where the point isn't whole or isn't near.
pub fn corner_at(ratio: Ratio, placement: Placement, x: i64, y: i64) -> Option<Point>
    requires fit { IsFitRatio ratio }
    requires held { IsHeld (2 ^ 104 * 8_000_000) placement }
    requires x { IsWithin (2 ^ 33) x }
    requires y { IsWithin (2 ^ 33) y }
    ensures some { IfSome result (IsCornerAt (scale_of ratio) placement x y) }
    ensures none { IfNone result (IsFarDotAt (scale_of ratio) placement x y) }
{
    let Some(across) = ratio.scaled(x) else {
        return None;
    };
    let Some(up) = ratio.scaled(y) else {
        return None;
    };
    let dot = dot_at(placement, across, up);
    if !dot.are_near() {
        return None;
    }
    let rect = dot.rect(Layer::ND);
    Some(Point {
        x: backed_if(placement.flips_x, rect.x0),
        y: backed_if(placement.flips_y, rect.y0),
    })
}

fn is_whole(ratio: Ratio, point: Point) -> bool
    requires fit { IsFitRatio ratio }
    requires short { IsShortPoint point }
    ensures whole { OnTrue result (IsWholePoint (scale_of ratio) point) }
    ensures uneven { OnFalse result (¬ IsWholePoint (scale_of ratio) point) }
{
    let Some(_) = ratio.scaled_twice(point.x) else {
        return false;
    };
    let Some(_) = ratio.scaled_twice(point.y) else {
        return false;
    };
    true
}

/// Whether each point of a path is whole.
pub fn are_whole(ratio: Ratio, path: &[Point]) -> bool
    requires fit { IsFitRatio ratio }
    requires short { All IsShortPoint path.now }
    ensures whole { OnTrue result (All (IsWholePoint (scale_of ratio)) path.now) }
    ensures uneven { OnFalse result (HasUnevenPoint (scale_of ratio) path.now) }
{
    for index in 0..path.len() {
        if !is_whole(ratio, path[index]) {
            return false;
        }
    }
    true
}

/// A point, scaled and placed, or nothing where it isn't whole or isn't near.
fn placed_point(ratio: Ratio, placement: Placement, point: Point) -> Option<Point>
    requires fit { IsFitRatio ratio }
    requires held { IsHeld (2 ^ 104 * 8_000_000) placement }
    requires short { IsShortPoint point }
    ensures some { IfSome result (IsPlacedPoint (scale_of ratio) placement point) }
    ensures none { IfNone result (IsFarDotAt (scale_of ratio) placement (pos 2 *ℤ point.x) (pos 2 *ℤ point.y)) }
{
    let Some(across) = ratio.scaled_twice(point.x) else {
        return None;
    };
    let Some(up) = ratio.scaled_twice(point.y) else {
        return None;
    };
    let dot = dot_at(placement, across, up);
    if !dot.are_near() {
        return None;
    }
    let rect = dot.rect(Layer::ND);
    Some(Point {
        x: rect.x0,
        y: rect.y0,
    })
}

/// The points of a path, scaled and placed, or nothing where one isn't near.
pub fn placed_points(
    alloc: Global,
    ratio: Ratio,
    placement: Placement,
    path: &[Point],
) -> Result<Option<Vec<Point>>, AllocError>
    requires fit { IsFitRatio ratio }
    requires held { IsHeld (2 ^ 104 * 8_000_000) placement }
    requires short { All IsShortPoint path.now }
    requires whole { All (IsWholePoint (scale_of ratio)) path.now }
    ensures { IfOk result (ArePlaced (scale_of ratio) placement path.now) }
{
    let mut points = Vec::new(alloc);
    for index in 0..path.len() {
        let Some(point) = placed_point(ratio, placement, path[index]) else {
            return Ok(None);
        };
        points.push(point)?;
    }
    Ok(Some(points))
}

/// Draws pieces on a layer.
fn draw_pieces(shapes: &mut List<Rect>, layer: Layer, pieces: &[Rect]) -> Result<(), AllocError>
    ensures { OnOk result (shapes.new ≡ shapes.old ++ map (on_layer layer) pieces.now) }
{
    for piece in pieces {
        let mut rect = *piece;
        rect.layer = layer;
        shapes.push(rect)?;
    }
    Ok(())
}

/// Draws the polygon of these points on a layer.
pub fn draw_polygon(
    alloc: Global,
    shapes: &mut List<Rect>,
    layer: Layer,
    points: &[Point],
) -> Result<(), AllocError>
    requires { All IsStraight (sides points.now) }
    ensures { OnOk result (IsDrawnPolygon layer points.now shapes.old shapes.new) }
{
    let pieces = cut(alloc, points)?;
    draw_pieces(shapes, layer, pieces.as_slice())?;
    Ok(())
}
