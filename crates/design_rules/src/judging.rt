//! The first broken rule of a drawing.

ghost use Rattle.std.specs.Prelude.{◌≡◌, ◌↔◌, ◌≤◌, All, IfOk, IsTrue, true};
ghost use Rattle.lam_geom.specs.Moves.{IsNear, IsNearRect};
ghost use Rattle.lam_geom.specs.Squares.{covered};
ghost use Rattle.lam_geom.specs.Rules.{BreaksRule};
ghost use Rattle.rule_tiles.specs.First.{IsFirst};
ghost use Rattle.design_rules.specs.Verdicts.{IsVerdict};

use cif_flat::Flat;
use lam_geom::{Layer, Point, Rect};
use mp_base::NoMemory;
use rule_rows::{first_open_gate, first_tight, first_unrelated};
use rule_tiles::{first_bare_cut, first_narrow, first_odd_cut};
use std::alloc::Global;

/// What the lambda rules say of a drawing: it is clean, or the first rule in order of number that is broken, from 1 to
/// 10, and the first square that breaks it, by y and then by x, in half-units.
#[derive(Clone, Copy, PartialEq, Eq, Debug)]
pub enum Verdict {
    Clean,
    Breach { rule: u8, x: i64, y: i64 },
}

/// The verdict of the rules on a drawing. Edges farther than 2^40 half-units from the origin, which no file draws, count
/// as want of memory.
pub fn judge(alloc: Global, flat: &Flat) -> Result<Verdict, NoMemory>
    ensures { IfOk result (IsVerdict (covered flat.now.shapes)) }
{
    judged(alloc, flat.shapes.as_slice())
}

// The same for shapes.
fn judged(alloc: Global, shapes: &[Rect]) -> Result<Verdict, NoMemory>
    ensures { IfOk result (IsVerdict (covered shapes.now)) }
{
    if !are_near(shapes) {
        return Err(NoMemory);
    }
    for rule in 1..11 {
        if let Some(place) = first_square(alloc, shapes, rule)? {
            return Ok(Verdict::Breach {
                rule,
                x: place.x,
                y: place.y,
            });
        }
    }
    Ok(Verdict::Clean)
}

// The first square that breaks the rule of this number.
fn first_square(alloc: Global, shapes: &[Rect], rule: u8) -> Result<Option<Point>, NoMemory>
    requires near { All IsNearRect shapes.now }
    requires low { 1 ≤ rule }
    requires high { rule ≤ 10 }
    ensures { IfOk result (IsFirst (BreaksRule (covered shapes.now) rule)) }
{
    match rule {
        1 => first_narrow(alloc, shapes, Layer::ND, 1000),
        2 => first_narrow(alloc, shapes, Layer::NP, 1000),
        3 => first_narrow(alloc, shapes, Layer::NM, 1500),
        4 => first_tight(alloc, shapes, Layer::ND, 1500),
        5 => first_tight(alloc, shapes, Layer::NP, 1000),
        6 => first_tight(alloc, shapes, Layer::NM, 1500),
        7 => first_unrelated(alloc, shapes),
        8 => first_open_gate(alloc, shapes),
        9 => first_odd_cut(alloc, shapes),
        _ => first_bare_cut(alloc, shapes),
    }
}

fn are_near(shapes: &[Rect]) -> bool
    ensures { result ≡ true → All IsNearRect shapes.now }
{
    shapes.iter().all(|shape| is_near(shape))
}

fn is_near(shape: &Rect) -> bool
    ensures { IsTrue result ↔ IsNearRect shape.now }
{
    are_near_edges(shape.x0, shape.x1) && are_near_edges(shape.y0, shape.y1)
}

fn are_near_edges(low: i64, high: i64) -> bool
    ensures { IsTrue result ↔ IsNear low × IsNear high }
{
    is_near_edge(low) && is_near_edge(high)
}

const FAR: i64 = 1_099_511_627_776;

fn is_near_edge(edge: i64) -> bool
    ensures { IsTrue result ↔ IsNear edge }
{
    -FAR <= edge && edge <= FAR
}
