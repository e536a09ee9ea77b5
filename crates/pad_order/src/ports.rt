//! Frames of pads for ports.

ghost use Rattle.std.specs.Prelude.{◌≡◌, ◌<◌, All, IfOk, get_or, length, map, pos};
ghost use Rattle.pad_order.specs.Entries.{no_spot, wish_at};
ghost use Rattle.pad_order.specs.Ordered.{AreParted, IsFrameOf};

use crate::order::{Entry, places, rising};
use mp_base::{List, Name, NoMemory};
use pad_frame::{Framed, PadSpot, PadWish, frame};
use std::alloc::Global;

/// What is to be joined to a pad: its name, and the lowest square of its port, in lambda.
#[derive(Drop)]
pub struct Port {
    pub name: Name,
    pub height: u32,
}

// The wish of a port.
fn wish(alloc: Global, port: &Port) -> Result<PadWish, NoMemory>
    ensures { IfOk result (λ wish. (wish.name ≡ port.now.name) × (wish.row ≡ pos port.now.height)) }
{
    Ok(PadWish {
        name: Name::from_slice(alloc, port.name.bytes())?,
        row: i64::from(port.height),
    })
}

// The wishes of the ports, in the order of the entries.
fn wishes_of(alloc: Global, ports: &[Port], entries: &[Entry]) -> Result<List<PadWish>, NoMemory>
    requires { All (λ e. e.number < length ports.now) entries.now }
    ensures { IfOk result (λ wishes. wishes ≡ map (wish_at ports.now) entries.now) }
{
    let mut wishes = List::new(alloc);
    for place in 0..entries.len() {
        let number = entries[place].number as usize;
        let wish = wish(alloc, &ports[number])?;
        wishes.push(wish)?;
    }
    Ok(wishes)
}

// The same spot.
fn copied(alloc: Global, spot: &PadSpot) -> Result<PadSpot, NoMemory>
    ensures { IfOk result
        (λ new. (new.name ≡ spot.now.name) × (new.x ≡ spot.now.x) × (new.y ≡ spot.now.y)) }
{
    Ok(PadSpot {
        name: Name::from_slice(alloc, spot.name.bytes())?,
        x: spot.x,
        y: spot.y,
    })
}

// The spots at these places.
fn spots_of(alloc: Global, spots: &[PadSpot], places: &[u32]) -> Result<List<PadSpot>, NoMemory>
    requires { All (λ place. place < length spots.now) places.now }
    ensures { IfOk result (λ told. told ≡ map (λ place. get_or spots.now place no_spot) places.now) }
{
    let mut told = List::new(alloc);
    for number in 0..places.len() {
        let place = places[number] as usize;
        let spot = copied(alloc, &spots[place])?;
        told.push(spot)?;
    }
    Ok(told)
}

/// A frame with a pad for each port, the pad of the lowest port lowest; the spots stand in the order of the ports.
///
/// # Errors
/// Want of memory.
pub fn frame_ports(alloc: Global, ports: &[Port]) -> Result<Framed, NoMemory>
    requires { AreParted ports.now }
    ensures { IfOk result (IsFrameOf ports.now) }
{
    let entries = rising(alloc, ports)?;
    let wishes = wishes_of(alloc, ports, &entries)?;
    let places = places(alloc, &entries)?;
    let Framed { shape, spots } = frame(alloc, wishes.as_slice())?;
    let told = spots_of(alloc, spots.as_slice(), &places)?;
    Ok(Framed { shape, spots: told })
}
