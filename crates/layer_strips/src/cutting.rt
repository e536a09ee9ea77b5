//! The regions of a drawing.

ghost use Rattle.std.specs.Prelude.{◌≡◌, ◌<◌, ◌^◌, All, IfOk, map, length};
ghost use Rattle.layer_strips.specs.Strips.{AreStrips, AreTouchingPairs};
ghost use Rattle.layer_strips.specs.Layers.{pair_of};
ghost use Rattle.lam_geom.specs.Squares.{rank};
ghost use Rattle.layer_strips.specs.Sweep.{IsSolid, AreApart};

use crate::found::Regions;
use crate::pairs::sweep;
use crate::part::Part;
use crate::strips::add_layer;
use lam_geom::{Layer, Rect};
use mp_base::{List, NoMemory};
use region_sweep::Pair;
use std::alloc::Global;

/// Cuts what the rectangles cover into strips, and finds which touch. A rectangle without squares covers nothing. 2^31
/// different coordinates of one axis, or 2^31 strips of a layer or 2^32 of all, count as want of memory. The time is
/// that of sorting the sides of the rectangles, the strips and the pairs.
pub fn regions(alloc: Global, shapes: &[Rect]) -> Result<Regions, NoMemory>
    ensures strips { IfOk result (λ r. AreStrips shapes.now r.strips) }
    ensures pairs { IfOk result (λ r. AreTouchingPairs r.strips r.pairs) }
{
    let strips = all_strips(alloc, shapes)?;
    if strips.len() > u32::MAX as usize {
        return Err(NoMemory);
    }
    let pairs = all_pairs(alloc, strips.as_slice())?;
    Ok(Regions { strips, pairs })
}

// The strips of all layers.
fn all_strips(alloc: Global, shapes: &[Rect]) -> Result<List<Rect>, NoMemory>
    ensures { IfOk result (λ v. AreStrips shapes.now v) }
{
    let mut strips = List::new(alloc);
    for number in 0..LAYERS {
        add_layer(alloc, shapes, layer(number), &mut strips)?;
    }
    Ok(strips)
}

// The pairs of strips that touch.
fn all_pairs(alloc: Global, strips: &[Rect]) -> Result<List<Pair>, NoMemory>
    requires solid { All IsSolid strips.now }
    requires few { length strips.now < 2 ^ 32 }
    requires apart { AreApart strips.now }
    ensures { IfOk result (λ v. AreTouchingPairs strips.now v) }
{
    let mut pairs = List::new(alloc);
    for number in 0..LAYERS {
        let own = layer(number);
        sweep(alloc, strips, own, Part::Body, &mut pairs)?;
        sweep(alloc, strips, own, Part::Top, &mut pairs)?;
    }
    let mut pairs = pairs.into_vec();
    pairs.sort_unstable();
    pairs.dedup();
    listed(alloc, pairs.as_slice())
}

const LAYERS: u8 = 7;

// The layers by numbers below `LAYERS`.
fn layer(number: u8) -> Layer
    requires { number < 7 }
    ensures { rank result ≡ number }
{
    match number {
        0 => Layer::NM,
        1 => Layer::NP,
        2 => Layer::ND,
        3 => Layer::NC,
        4 => Layer::NI,
        5 => Layer::NB,
        _ => Layer::NG,
    }
}

fn listed(alloc: Global, pairs: &[(u32, u32)]) -> Result<List<Pair>, NoMemory>
    ensures { IfOk result (λ v. v ≡ map pair_of pairs.now) }
{
    let mut list = List::new(alloc);
    for (a, b) in pairs {
        list.push(Pair { a: *a, b: *b })?;
    }
    Ok(list)
}
