//! What a sweep over the rows meets, lowest rows first.

ghost use Rattle.std.specs.Prelude.{◌≡◌, ◌<◌, ◌^◌, All, IfOk, OnOk, length};
ghost use Rattle.layer_strips.specs.Sweep.{first, last, IsSolid, begin, ask, finish, AddsEvents, IsSchedule};

use crate::part::Part;
use lam_geom::{Layer, Rect};
use mp_base::{List, NoMemory};
use std::alloc::Global;

#[derive(Clone, Copy)]
pub(crate) enum Step {
    Begin,
    Ask,
    Finish,
}

/// A step at a strip, by its index. In one row strips begin, then strips ask for those that have begun, and then strips
/// finish: three times in turn.
#[derive(Clone, Copy)]
pub(crate) struct Event {
    pub time: i128,
    pub step: Step,
    pub index: u32,
}

impl Event {
    fn begin(strip: &Rect, index: u32, part: Part) -> Event
        ensures { result ≡ begin part index strip.now }
    {
        let row = i128::from(part.first(strip));
        Event {
            time: row + row + row,
            step: Step::Begin,
            index,
        }
    }

    fn ask(strip: &Rect, index: u32) -> Event
        ensures { result ≡ ask index strip.now }
    {
        let row = i128::from(strip.y0);
        Event {
            time: row + row + row + 1,
            step: Step::Ask,
            index,
        }
    }

    fn finish(strip: &Rect, index: u32, part: Part) -> Event
        requires { IsSolid strip.now }
        ensures { result ≡ finish part index strip.now }
    {
        let row = i128::from(part.last(strip));
        Event {
            time: row + row + row + 2,
            step: Step::Finish,
            index,
        }
    }
}

/// The events of a sweep in which each strip asks, and those of the layer begin and finish.
pub(crate) fn schedule(
    alloc: Global,
    strips: &[Rect],
    layer: Layer,
    part: Part,
) -> Result<Vec<Event>, NoMemory>
    requires solid { All IsSolid strips.now }
    requires few { length strips.now < 2 ^ 32 }
    ensures { IfOk result (λ v. IsSchedule layer part strips.now v.items) }
{
    let mut events = List::new(alloc);
    for (index, strip) in strips.iter().enumerate() {
        add(&mut events, strip, index as u32, layer, part)?;
    }
    let mut events = events.into_vec();
    events.sort_by_key(|event| event.time)?;
    Ok(events)
}

// Adds the events of a strip.
fn add(
    events: &mut List<Event>,
    strip: &Rect,
    index: u32,
    layer: Layer,
    part: Part,
) -> Result<(), NoMemory>
    requires { IsSolid strip.now }
    ensures { OnOk result (AddsEvents layer part index strip.now events.old events.new) }
{
    events.push(Event::ask(strip, index))?;
    if strip.layer == layer {
        events.push(Event::begin(strip, index, part))?;
        events.push(Event::finish(strip, index, part))?;
    }
    Ok(())
}
