//! Upright edges of rectangles, laid on one line.

ghost use Rattle.std.specs.Prelude.{◌≡◌, All, IfOk, OnOk};
ghost use Rattle.lam_geom.specs.Moves.{IsNear, IsNearRect};
ghost use Rattle.rule_edges.specs.Edges.{number, end_of, start_of, AddsEnd, AddsStart, HasEdges};

use crate::along::laid;
use crate::facing::Facing;
use crate::offset::offset;
use lam_geom::Rect;
use mp_base::{List, NoMemory};
use std::alloc::{AllocError, Global};

// How many numbers each column has.
const COLUMN: u128 = 4_398_046_511_104;

/// The squares along an edge, by numbers that go up each column after another: those from `from` up to `to`. A
/// rectangle begins there, or one ends.
#[derive(Clone, Copy, Drop)]
pub(crate) struct Edge {
    pub from: u128,
    pub to: u128,
    pub begins: bool,
}

/// The edges of the rectangles that may face each other so: where some end, moved on by the gap, and where others
/// begin.
pub(crate) fn edges_of(
    alloc: Global,
    shapes: &[Rect],
    facing: Facing,
) -> Result<Vec<Edge>, NoMemory>
    requires { All IsNearRect shapes.now }
    ensures { IfOk result (λ v. HasEdges facing shapes.now v.items) }
{
    let mut edges = List::new(alloc);
    for shape in shapes {
        add_end(&mut edges, shape, facing)?;
        add_start(&mut edges, shape, facing)?;
    }
    let mut edges = edges.into_vec();
    edges.sort_by_key(|edge| edge.from)?;
    Ok(edges)
}

fn add_end(edges: &mut List<Edge>, shape: &Rect, facing: Facing) -> Result<(), AllocError>
    requires { IsNearRect shape.now }
    ensures { OnOk result (AddsEnd facing shape.now edges.old edges.new) }
{
    if shape.layer == facing.from {
        edges.push(end(&laid(shape, facing.along), facing.gap))?;
    }
    Ok(())
}

fn add_start(edges: &mut List<Edge>, shape: &Rect, facing: Facing) -> Result<(), AllocError>
    requires { IsNearRect shape.now }
    ensures { OnOk result (AddsStart facing shape.now edges.old edges.new) }
{
    if shape.layer == facing.to {
        edges.push(start(&laid(shape, facing.along)))?;
    }
    Ok(())
}

fn end(shape: &Rect, gap: u32) -> Edge
    requires { IsNearRect shape.now }
    ensures { result ≡ end_of gap shape.now }
{
    Edge {
        from: number(shape.x1, shape.y0, gap),
        to: number(shape.x1, shape.y1, gap),
        begins: false,
    }
}

fn start(shape: &Rect) -> Edge
    requires { IsNearRect shape.now }
    ensures { result ≡ start_of shape.now }
{
    Edge {
        from: number(shape.x0, shape.y0, 0),
        to: number(shape.x0, shape.y1, 0),
        begins: true,
    }
}

fn number(x: i64, y: i64, gap: u32) -> u128
    requires x { IsNear x }
    requires y { IsNear y }
    ensures { result ≡ number x y gap }
{
    (u128::from(offset(x)) + u128::from(gap)) * COLUMN + u128::from(offset(y))
}
