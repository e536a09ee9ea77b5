//! Routes.

ghost use Rattle.std.specs.Prelude.{◌≡◌, ◌<◌, ◌≤◌, ◌^◌, ◌++◌, ◌≤ℤ◌, ℤ, pos, neg_ℤ, IfOk, OnOk, flat_map, length};
ghost use Rattle.std.specs.List.{range_with_len};
ghost use Rattle.metal_pieces.specs.Pieces.{metal as metal_of};
ghost use Rattle.river_route.specs.Routes.{AreEnds, AreRoutes, IsLow, bent as bent_of, route_of, route_rects};

use lam_geom::laws::rectangles_are_joined;
use lam_geom::{Layer, Rect, Shape};
use mp_base::{List, NoMemory};
use std::alloc::Global;

/// Metal whose corners are given in lambda.
pub fn metal(x0: i64, y0: i64, x1: i64, y1: i64) -> Rect
    requires x0 { (neg_ℤ (pos (2 ^ 32)) ≤ℤ x0) × (x0 ≤ℤ pos (2 ^ 32)) }
    requires y0 { (neg_ℤ (pos (2 ^ 32)) ≤ℤ y0) × (y0 ≤ℤ pos (2 ^ 32)) }
    requires x1 { (neg_ℤ (pos (2 ^ 32)) ≤ℤ x1) × (x1 ≤ℤ pos (2 ^ 32)) }
    requires y1 { (neg_ℤ (pos (2 ^ 32)) ≤ℤ y1) × (y1 ≤ℤ pos (2 ^ 32)) }
    ensures { result ≡ metal_of x0 y0 x1 y1 }
{
    Rect {
        layer: Layer::NM,
        x0: 500 * x0,
        y0: 500 * y0,
        x1: 500 * x1,
        y1: 500 * y1,
    }
}

// The heights of a net at the left and at the right, and its lowest and its highest one.
#[derive(Clone, Copy)]
pub(crate) struct Bend {
    pub left: i64,
    pub right: i64,
    pub low: i64,
    pub high: i64,
}

// Adds a net that goes up or down in a lane.
fn push_bent(shape: &mut Shape, left: i64, nets: u32, lane: u32, bend: Bend) -> Result<(), NoMemory>
    requires edge { IsLow left }
    requires nets { nets ≤ 2 ^ 20 }
    requires lane { lane < nets }
    requires ends { IsLow bend.left × IsLow bend.right }
    requires heights { IsLow bend.low × IsLow bend.high }
    ensures { OnOk result (shape.new ≡ shape.old ++ bent_of left nets lane bend.left bend.right bend.low bend.high) }
{
    let x = left + 7 * i64::from(lane);
    shape.push(metal(left, bend.left, x + 4, bend.left + 4))?;
    shape.push(metal(x, bend.low, x + 4, bend.high + 4))?;
    shape.push(metal(x, bend.right, left + 7 * i64::from(nets), bend.right + 4))?;
    Ok(())
}

/// Adds net `net` of so many, from a channel's left edge at the height `l` to its right edge at the height `r`, all in
/// lambda.
///
/// # Errors
/// Want of memory.
pub fn push_route(
    shape: &mut Shape,
    left: i64,
    nets: u32,
    net: u32,
    ends: (i64, i64),
) -> Result<(), NoMemory>
    requires edge { IsLow left }
    requires nets { nets ≤ 2 ^ 20 }
    requires net { net < nets }
    requires ends { IsLow ends.0 × IsLow ends.1 }
    ensures { OnOk result (shape.new ≡ shape.old ++ route_rects left nets net ends.0 ends.1) }
{
    let (l, r) = ends;
    if r <= l {
        push_bent(
            shape,
            left,
            nets,
            net,
            Bend {
                left: l,
                right: r,
                low: r,
                high: l,
            },
        )
    } else {
        push_bent(
            shape,
            left,
            nets,
            nets - 1 - net,
            Bend {
                left: l,
                right: r,
                low: l,
                high: r,
            },
        )
    }
}

/// River routes from ports at the left to ports at the right, each given by its lowest square, in lambda; what is
/// drawn is in half-units, from 0 to 7 lambda for each net (Leiserson and Pinter: routes that don't cross need no
/// second layer).
///
/// # Errors
/// Want of memory.
pub fn route(alloc: Global, ends: &[(i64, i64)]) -> Result<Shape, NoMemory>
    requires { AreEnds ends.now }
    ensures drawn { IfOk result (λ shape. shape ≡ flat_map (route_of (pos 0) ends.now) (range_with_len 0 (length ends.now))) }
    ensures routes { IfOk result (AreRoutes (pos 0) ends.now) }
{
    rectangles_are_joined();
    let nets = ends.len() as u32;
    let mut shape = List::new(alloc);
    for net in 0..nets {
        push_route(&mut shape, 0, nets, net, ends[net as usize])?;
    }
    Ok(shape)
}
