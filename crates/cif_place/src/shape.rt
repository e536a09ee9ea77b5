//! Boxes and wires.

ghost use Rattle.std.specs.Prelude.{◌≡◌, ◌*◌, ◌^◌, ◌<◌, length, slice_index_or, All, IfOk, IfErr, IfSome, IfNone};
ghost use Rattle.std.specs.Bool.{OnTrue, OnFalse};
ghost use Rattle.lam_geom.specs.declared.layer.Layer.{Layer};
ghost use Rattle.lam_geom.specs.declared.rect.Rect.{Rect};
ghost use Rattle.cif_form.specs.Place.{segments, IsSegment};
ghost use Rattle.cif_place.specs.Placing.{IsShort, IsShortPoint, IsFitRatio, AreSmall, IsHeld, scale_of, rect_of};
ghost use Rattle.cif_place.specs.Shaping.{IsAroundCenter, IsUneven, IsBoxEdges, IsBoxFault, IsStraight};
ghost use Rattle.cif_place.specs.Shaping.{HasAskewSegment, IsDrawnIfNear, IsWired};

use crate::edges::{Edges, Extent};
use crate::placement::Placement;
use crate::ratio::Ratio;
use lam_geom::{Layer, Point, Rect};
use mp_base::List;
use std::alloc::AllocError;

/// Why a box has no edges.
#[derive(Clone, Copy, Drop)]
pub enum BoxFault {
    /// Its direction is off the axes.
    Askew,
    /// Some edge isn't whole.
    Uneven,
}

fn edges_around(ratio: Ratio, center: Point, extent: Extent) -> Result<Edges, BoxFault>
    requires fit { IsFitRatio ratio }
    requires center { IsShortPoint center }
    requires extent { IsShort extent.across × IsShort extent.up }
    ensures ok { IfOk result (IsAroundCenter ratio extent center) }
    ensures err { IfErr result (IsUneven ratio extent center) }
{
    match Edges::around(ratio, center, center, extent) {
        Some(edges) => Ok(edges),
        None => Err(BoxFault::Uneven),
    }
}

/// The edges of a box whose length lies along its direction, or the first rule of its direction and edges that is
/// broken.
pub fn box_edges(
    ratio: Ratio,
    extent: Extent,
    center: Point,
    direction: Point,
) -> Result<Edges, BoxFault>
    requires fit { IsFitRatio ratio }
    requires center { IsShortPoint center }
    requires extent { IsShort extent.across × IsShort extent.up }
    ensures ok { IfOk result (IsBoxEdges ratio extent center direction) }
    ensures err { IfErr result (IsBoxFault ratio extent center direction) }
{
    if direction.y == 0 {
        if direction.x == 0 {
            return Err(BoxFault::Askew);
        }
        return edges_around(ratio, center, extent);
    }
    if direction.x == 0 {
        return edges_around(ratio, center, extent.turned());
    }
    Err(BoxFault::Askew)
}

/// How many segments a path has.
pub fn segment_count(path: &[Point]) -> usize
    requires { 0 < length path.now }
    ensures { result ≡ length (segments path.now) }
{
    if path.len() == 1 { 1 } else { path.len() - 1 }
}

/// Two points of a path between which a wire is drawn.
#[derive(Clone, Copy, Drop)]
struct Segment {
    from: Point,
    to: Point,
}

fn segment_at(path: &[Point], index: usize) -> Segment
    requires some { 0 < length path.now }
    requires within { index < length (segments path.now) }
    ensures { (result.from, result.to) ≡ slice_index_or (segments path.now) index (result.from, result.to) }
{
    if path.len() == 1 {
        return Segment {
            from: path[0],
            to: path[0],
        };
    }
    Segment {
        from: path[index],
        to: path[index + 1],
    }
}

/// Whether each segment of a path lies along an axis.
pub fn are_straight(path: &[Point]) -> bool
    requires { 0 < length path.now }
    ensures straight { OnTrue result (All IsStraight (segments path.now)) }
    ensures askew { OnFalse result (HasAskewSegment path.now) }
{
    for index in 0..segment_count(path) {
        let segment = segment_at(path, index);
        if segment.from.x != segment.to.x {
            if segment.from.y != segment.to.y {
                return false;
            }
        }
    }
    true
}

fn segment_edges(ratio: Ratio, extent: Extent, segment: Segment) -> Option<Edges>
    requires fit { IsFitRatio ratio }
    requires extent { IsShort extent.across × (extent.up ≡ extent.across) }
    requires from { IsShortPoint segment.from }
    requires to { IsShortPoint segment.to }
    requires straight { IsStraight (segment.from, segment.to) }
    ensures whole { IfSome result (λ e. (l : Layer)
        → IsSegment (scale_of ratio) l extent.across segment.from segment.to (rect_of l e)) }
    ensures small { IfSome result AreSmall }
    ensures uneven { IfNone result ((l : Layer) (r : Rect)
        → ¬ IsSegment (scale_of ratio) l extent.across segment.from segment.to r) }
{
    if segment.from.x <= segment.to.x {
        if segment.from.y <= segment.to.y {
            return Edges::around(ratio, segment.from, segment.to, extent);
        }
    }
    Edges::around(ratio, segment.to, segment.from, extent)
}

/// Draws a rectangle if it is near, and says whether it is and others were.
fn draw(
    shapes: &mut List<Rect>,
    others: bool,
    layer: Layer,
    edges: Edges,
) -> Result<bool, AllocError>
    ensures { IfOk result (IsDrawnIfNear others layer edges shapes.old shapes.new) }
{
    if !edges.are_near() {
        return Ok(false);
    }
    shapes.push(edges.rect(layer))?;
    Ok(others)
}

/// What becomes of a wire.
#[derive(Clone, Copy, Drop)]
pub enum Wired {
    /// Some edge isn't whole.
    Uneven,
    /// Some rectangle isn't near.
    Far,
    Drawn,
}

/// Draws a wire on a layer at a scale and a placement, if its rectangles are near. `extent` has the width of the wire
/// across and up.
pub fn draw_wire(
    shapes: &mut List<Rect>,
    ratio: Ratio,
    placement: Placement,
    layer: Layer,
    extent: Extent,
    path: &[Point],
) -> Result<Wired, AllocError>
    requires fit { IsFitRatio ratio }
    requires held { IsHeld (2 ^ 104 * 8_000_000) placement }
    requires extent { IsShort extent.across × (extent.up ≡ extent.across) }
    requires some { 0 < length path.now }
    requires short { All IsShortPoint path.now }
    requires straight { All IsStraight (segments path.now) }
    ensures { IfOk result (IsWired (scale_of ratio) placement layer extent.across
        (segments path.now) shapes.old shapes.new) }
{
    let mut near = true;
    for index in 0..segment_count(path) {
        let segment = segment_at(path, index);
        let Some(edges) = segment_edges(ratio, extent, segment) else {
            return Ok(Wired::Uneven);
        };
        near = draw(shapes, near, layer, placement.place(edges))?;
    }
    if near {
        return Ok(Wired::Drawn);
    }
    Ok(Wired::Far)
}
