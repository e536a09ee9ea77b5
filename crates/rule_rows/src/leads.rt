//! Tiles of polysilicon and of gaps that lead to diffusion.

ghost use Rattle.std.specs.Prelude.{◌≡◌, ◌↔◌, ℤ, pos, ◌+ℤ◌, ◌≤ℤ◌, ◌<ℤ◌, IfOk, IsTrue, OnOk, Some};
ghost use Rattle.rule_rows.specs.Nears.{AddsColumn, AddsLeads, IsColumn, IsLeading, IsPlan, IsShortGap};
ghost use Rattle.rule_rows.specs.Nears.{bound, column_of, LeadsLeft, LeadsRight};

use lam_geom::{Layer, Rect};
use mask_runs::Mask;
use mp_base::{List, NoMemory};
use region_sweep::{Tile, sweep};
use std::alloc::Global;

// Where the field of a plan ends.
const END: i64 = 4_398_046_511_104;

/// Draws the squares of polysilicon from which diffusion alone is nearer than a lambda, to the right or to the left.
pub(crate) fn leading(alloc: Global, plan: &[Rect]) -> Result<List<Rect>, NoMemory>
    requires { IsPlan plan.now }
    ensures { IfOk result (IsLeading plan.now) }
{
    let swept = sweep(alloc, plan, Mask::Diffusion, &[])?;
    let tiles = swept.tiles.as_slice();
    let mut rects = List::new(alloc);
    for pair in swept.pairs.as_slice() {
        lead(&mut rects, &tiles[pair.a as usize], &tiles[pair.b as usize])?;
        lead(&mut rects, &tiles[pair.b as usize], &tiles[pair.a as usize])?;
    }
    Ok(rects)
}

// Draws the squares in rows where the one tile leads to the other.
fn lead(rects: &mut List<Rect>, from: &Tile, to: &Tile) -> Result<(), NoMemory>
    ensures { OnOk result (AddsLeads from.now to.now rects.old rects.new) }
{
    add(rects, to_right(from, to), from, to)?;
    add(rects, to_left(from, to), from, to)
}

// Draws the column in the rows of both tiles.
fn add(rects: &mut List<Rect>, column: Option<i64>, from: &Tile, to: &Tile) -> Result<(), NoMemory>
    ensures { OnOk result (AddsColumn column from.now to.now rects.old rects.new) }
{
    if let Some(x) = column
        && x < END
    {
        let bottom = later(from.y0, to.y0);
        let top = sooner(from.y1, to.y1);
        rects.push(square_column(x, bottom, top))?;
    }
    Ok(())
}

fn square_column(x: i64, bottom: i64, top: i64) -> Rect
    requires { x <ℤ bound }
    ensures { result ≡ column_of x bottom top }
{
    Rect {
        layer: Layer::ND,
        x0: x,
        y0: bottom,
        x1: x + 1,
        y1: top,
    }
}

fn later(a: i64, b: i64) -> i64
    ensures { (y : ℤ) → (result ≤ℤ y) ↔ (a ≤ℤ y) × (b ≤ℤ y) }
{
    if a < b { b } else { a }
}

fn sooner(a: i64, b: i64) -> i64
    ensures { (y : ℤ) → (y <ℤ result) ↔ (y <ℤ a) × (y <ℤ b) }
{
    if a < b { a } else { b }
}

// The column from which the one leads to the right.
fn to_right(from: &Tile, to: &Tile) -> Option<i64>
    ensures { (x : ℤ) → (result ≡ Some x) ↔ IsColumn x × (to.now.colour ≡ 3) × LeadsRight from.now to.now x }
{
    if to.colour != 3 || from.x1 != to.x0 {
        None
    } else if from.colour == 1 {
        before(from.x1)
    } else if is_short(from) {
        before(from.x0)
    } else {
        None
    }
}

// And to the left.
fn to_left(from: &Tile, to: &Tile) -> Option<i64>
    ensures { (x : ℤ) → (result ≡ Some x) ↔ IsColumn x × (to.now.colour ≡ 3) × LeadsLeft from.now to.now x }
{
    if to.colour != 3 || to.x1 != from.x0 {
        None
    } else if from.colour == 1 {
        at(from.x0)
    } else if is_short(from) {
        at(from.x1)
    } else {
        None
    }
}

fn before(edge: i64) -> Option<i64>
    ensures { (x : ℤ) → (result ≡ Some x) ↔ IsColumn x × (x +ℤ pos 1 ≡ edge) }
{
    if -END < edge && edge <= END {
        Some(edge - 1)
    } else {
        None
    }
}

fn at(edge: i64) -> Option<i64>
    ensures { (x : ℤ) → (result ≡ Some x) ↔ IsColumn x × (x ≡ edge) }
{
    if -END <= edge && edge < END {
        Some(edge)
    } else {
        None
    }
}

// A gap shorter than a lambda.
fn is_short(from: &Tile) -> bool
    ensures { IsTrue result ↔ IsShortGap from.now }
{
    from.colour == 2 && ends_soon(from.x0, from.x1)
}

fn ends_soon(start: i64, end: i64) -> bool
    ensures { IsTrue result ↔ (end <ℤ (start +ℤ pos 500)) }
{
    i128::from(end) < i128::from(start) + 500
}
