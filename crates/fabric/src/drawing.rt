//! The rectangles of a fabric.

ghost use Rattle.std.specs.Prelude.{◌≡◌, ◌<◌, ◌≤◌, ◌+◌, ◌*◌, ◌++◌, ◌∷◌, [], length, map, flat_map, All, IfOk, OnOk};
ghost use Rattle.std.specs.List.{range_with_len};
ghost use Rattle.fabric.specs.Plan.{Plan, bands, rows_of, IsFabric, IsSegment, IsLine, IsMark};
ghost use Rattle.fabric.specs.Shape.{lambdas as in_lambdas, last_column, ground_trunk, power_trunk, band_rects};
ghost use Rattle.fabric.specs.Shape.{segment_rect as rect_of, line_rect as rect_of_line, mark_rects};
ghost use Rattle.fabric.specs.Shape.{placed as in_place, lift as lift_of};
ghost use Rattle.tile_cells.specs.Tiles.{cells};
ghost use Rattle.fabric.specs.Room.{IsRoomy};
ghost use Rattle.fabric.specs.Drawing.{AreBases, IsSmall, placed_rect};

use crate::fabric::Fabric;
use crate::thing::{Line, Mark, Segment, Side};
use lam_geom::{Layer, Rect, Shape};
use mp_base::{List, NoMemory};
use std::alloc::Global;
use tile_cells::{Tile, rects};

// A rectangle whose corners are given in lambda.
fn lambdas(layer: Layer, x0: u32, y0: u32, x1: u32, y1: u32) -> Rect
    ensures { result ≡ in_lambdas layer x0 y0 x1 y1 }
{
    Rect {
        layer,
        x0: 500 * i64::from(x0),
        y0: 500 * i64::from(y0),
        x1: 500 * i64::from(x1),
        y1: 500 * i64::from(y1),
    }
}

fn segment_rect(plan: &Fabric, bases: &[u32], s: &Segment) -> Rect
    requires bases { AreBases plan.now bases.now }
    requires place { IsSegment plan.now s.now }
    requires room { IsRoomy plan.now }
    ensures { result ≡ rect_of plan.now s.now }
{
    let y = bases[s.band as usize] + 12 * s.row;
    lambdas(Layer::NM, 20 * s.first, y + 6, 20 * s.last + 20, y + 10)
}

pub(crate) fn draw_segments(
    plan: &Fabric,
    bases: &[u32],
    segments: &[Segment],
    shape: &mut Shape,
) -> Result<(), NoMemory>
    requires bases { AreBases plan.now bases.now }
    requires places { All (IsSegment plan.now) segments.now }
    requires room { IsRoomy plan.now }
    ensures { OnOk result (shape.new ≡ shape.old ++ map (rect_of plan.now) segments.now) }
{
    for s in segments {
        shape.push(segment_rect(plan, bases, s))?;
    }
    Ok(())
}

/// The height of each band, and of the top, in lambda.
pub(crate) fn bases(alloc: Global, plan: &Fabric, rows: &[u32]) -> Result<List<u32>, NoMemory>
    requires rows { rows.now ≡ plan.now.rows }
    requires room { IsRoomy plan.now }
    ensures { IfOk result (AreBases plan.now) }
{
    let mut bases = List::new(alloc);
    let mut base = 0;
    bases.push(base)?;
    for row in rows {
        base += 12 * *row + 36;
        bases.push(base)?;
    }
    Ok(bases)
}

fn line_rect(plan: &Fabric, bases: &[u32], l: &Line) -> Rect
    requires bases { AreBases plan.now bases.now }
    requires place { IsLine plan.now l.now }
    requires room { IsRoomy plan.now }
    ensures { result ≡ rect_of_line plan.now l.now }
{
    let x = 20 * l.column
        + match l.side {
            Side::L => 2,
            Side::R => 14,
        };
    lambdas(
        Layer::ND,
        x,
        bases[l.first_band as usize],
        x + 4,
        bases[l.last_band as usize + 1] - 36,
    )
}

pub(crate) fn draw_lines(
    plan: &Fabric,
    bases: &[u32],
    lines: &[Line],
    shape: &mut Shape,
) -> Result<(), NoMemory>
    requires bases { AreBases plan.now bases.now }
    requires places { All (IsLine plan.now) lines.now }
    requires room { IsRoomy plan.now }
    ensures { OnOk result (shape.new ≡ shape.old ++ map (rect_of_line plan.now) lines.now) }
{
    for l in lines {
        shape.push(line_rect(plan, bases, l))?;
    }
    Ok(())
}

// The ground row and the power rail of each band.
fn draw_bands(plan: &Fabric, bases: &[u32], last: u32, shape: &mut Shape) -> Result<(), NoMemory>
    requires bases { AreBases plan.now bases.now }
    requires last { last ≡ last_column plan.now }
    requires room { IsRoomy plan.now }
    ensures { OnOk result (shape.new ≡
        shape.old ++ flat_map (band_rects plan.now) (range_with_len 0 (bands plan.now))) }
{
    for b in 0..bases.len() - 1 {
        let ground = bases[b] + 6;
        let power = bases[b + 1] - 9;
        shape.push(lambdas(Layer::NM, 7, ground, 20 * last, ground + 4))?;
        shape.push(lambdas(Layer::NM, 20, power, 20 * last + 13, power + 4))?;
    }
    Ok(())
}

/// The trunks, and what each band has of its own.
pub(crate) fn frame(alloc: Global, plan: &Fabric, bases: &[u32]) -> Result<Shape, NoMemory>
    requires bases { AreBases plan.now bases.now }
    requires met { IsFabric plan.now }
    requires room { IsRoomy plan.now }
    ensures { IfOk result (λ s. s ≡ ground_trunk plan.now ∷ power_trunk plan.now
        ∷ flat_map (band_rects plan.now) (range_with_len 0 (bands plan.now))) }
{
    let top = bases[bases.len() - 1];
    let last = plan.columns - 1;
    let mut shape = List::new(alloc);
    shape.push(lambdas(Layer::NM, 7, 0, 13, top))?;
    shape.push(lambdas(Layer::NM, 20 * last + 7, 0, 20 * last + 13, top))?;
    draw_bands(plan, bases, last, &mut shape)?;
    Ok(shape)
}

// A rectangle of a tile, where the tile's corner is at (x, y) in lambda.
fn placed(x: u32, y: u32, r: &Rect) -> Rect
    requires { IsSmall r.now }
    ensures { result ≡ placed_rect x y r.now }
{
    Rect {
        layer: r.layer,
        x0: 500 * (i64::from(x) + r.x0),
        y0: 500 * (i64::from(y) + r.y0),
        x1: 500 * (i64::from(x) + r.x1),
        y1: 500 * (i64::from(y) + r.y1),
    }
}

fn draw_tile(x: u32, y: u32, tile: Tile, shape: &mut Shape) -> Result<(), NoMemory>
    ensures { OnOk result (shape.new ≡ shape.old ++ map (in_place x y) (cells tile)) }
{
    for r in rects(tile) {
        shape.push(placed(x, y, r))?;
    }
    Ok(())
}

// How much higher than its row a mark is drawn.
fn lift(plan: &Fabric, bases: &[u32], m: &Mark) -> u32
    requires bases { AreBases plan.now bases.now }
    requires place { IsMark plan.now m.now }
    requires met { IsFabric plan.now }
    ensures { result ≡ lift_of plan.now m.now.tile m.now.band m.now.row }
{
    match m.tile {
        Tile::Under => {
            let height = bases[m.band as usize + 1] - bases[m.band as usize];
            if 12 * m.row + 36 == height { 21 } else { 0 }
        }
        _ => 0,
    }
}

fn draw_mark(plan: &Fabric, bases: &[u32], m: &Mark, shape: &mut Shape) -> Result<(), NoMemory>
    requires bases { AreBases plan.now bases.now }
    requires place { IsMark plan.now m.now }
    requires met { IsFabric plan.now }
    requires room { IsRoomy plan.now }
    ensures { OnOk result (shape.new ≡ shape.old ++ mark_rects plan.now m.now) }
{
    let y = bases[m.band as usize] + 12 * m.row + lift(plan, bases, m);
    draw_tile(20 * m.column, y, m.tile, shape)
}

pub(crate) fn draw_marks(
    plan: &Fabric,
    bases: &[u32],
    marks: &[Mark],
    shape: &mut Shape,
) -> Result<(), NoMemory>
    requires bases { AreBases plan.now bases.now }
    requires places { All (IsMark plan.now) marks.now }
    requires met { IsFabric plan.now }
    requires room { IsRoomy plan.now }
    ensures { OnOk result (shape.new ≡ shape.old ++ flat_map (mark_rects plan.now) marks.now) }
{
    for m in marks {
        draw_mark(plan, bases, m, shape)?;
    }
    Ok(())
}
