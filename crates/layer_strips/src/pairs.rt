//! The pairs of strips that touch.

ghost use Rattle.std.specs.Prelude.{◌<◌, ◌^◌, All, OnOk, length};
ghost use Rattle.std.specs.BTreeMap.{get};
ghost use Rattle.std.specs.Ordering.{int_cmp};
ghost use Rattle.layer_strips.specs.Sweep.{IsSolid, IsRow, AreApart, Grows, Joins, Answers, Does, Catches};

use crate::event::{Event, Step, schedule};
use crate::live;
use crate::part::Part;
use lam_geom::{Layer, Rect};
use mp_base::{List, NoMemory};
use std::alloc::{AllocError, Global};
use std::collections::BTreeMap;

/// Adds the pairs in which a strip of the layer has the lowest row of the other among these rows of its own.
pub(crate) fn sweep(
    alloc: Global,
    strips: &[Rect],
    layer: Layer,
    part: Part,
    pairs: &mut List<(u32, u32)>,
) -> Result<(), NoMemory>
    requires solid { All IsSolid strips.now }
    requires few { length strips.now < 2 ^ 32 }
    requires apart { AreApart strips.now }
    ensures grows { OnOk result (Grows strips.now pairs.old pairs.new) }
    ensures catches { OnOk result (Catches layer part strips.now pairs.new) }
{
    let events = schedule(alloc, strips, layer, part)?;
    let mut live = BTreeMap::new(alloc);
    for event in events.as_slice() {
        step(&mut live, strips, event, pairs)?;
    }
    Ok(())
}

fn step(
    live: &mut BTreeMap<i64, u32>,
    strips: &[Rect],
    event: &Event,
    pairs: &mut List<(u32, u32)>,
) -> Result<(), AllocError>
    requires inside { event.now.index < length strips.now }
    requires row { IsRow strips.now (get int_cmp live.old) }
    ensures { OnOk result (Does strips.now event.now.step event.now.index (get int_cmp live.old)
        (get int_cmp live.new) pairs.old pairs.new) }
{
    match event.step {
        Step::Begin => {
            live::put(live, strips[event.index as usize].x1, event.index)?;
            Ok(())
        }
        Step::Ask => ask(live, strips, event.index, pairs),
        Step::Finish => {
            live::cut(live, strips[event.index as usize].x1);
            Ok(())
        }
    }
}

// Adds the pairs of this strip and those of the row that touch it.
fn ask(
    live: &BTreeMap<i64, u32>,
    strips: &[Rect],
    index: u32,
    pairs: &mut List<(u32, u32)>,
) -> Result<(), AllocError>
    requires inside { index < length strips.now }
    requires row { IsRow strips.now (get int_cmp live.now) }
    ensures grows { OnOk result (Grows strips.now pairs.old pairs.new) }
    ensures answers { OnOk result (Answers strips.now index (get int_cmp live.now) pairs.new) }
{
    let strip = strips[index as usize];
    let mut next = live::from(live, strip.x0);
    while let Some((right, other)) = next {
        meet(strips, index, other, pairs)?;
        if strip.x1 < right {
            return Ok(());
        }
        next = live::after(live, right);
    }
    Ok(())
}

// Adds the pair of two strips if they touch.
fn meet(
    strips: &[Rect],
    index: u32,
    other: u32,
    pairs: &mut List<(u32, u32)>,
) -> Result<(), AllocError>
    requires inside { index < length strips.now }
    requires other { other < length strips.now }
    ensures grows { OnOk result (Grows strips.now pairs.old pairs.new) }
    ensures joins { OnOk result (Joins strips.now index other pairs.new) }
{
    let a = index.min(other);
    let b = index.max(other);
    if a < b && strips[a as usize].touches(&strips[b as usize]) {
        pairs.push((a, b))?;
    }
    Ok(())
}
