//! Labels on pads.

ghost use Rattle.std.specs.Prelude.{◌≡◌, ◌∷◌, All, IfOk, length};
ghost use Rattle.std.specs.List.{AllZip};
ghost use Rattle.chip_pads.specs.Ports.{bridge};
ghost use Rattle.pad_order.specs.Ordered.{AreParted};
ghost use Rattle.padded_labels.specs.Padded.{IsAtSpot, IsEvenSpot, IsPadded, ports_at};

use fabric::ChipLabel;
use lam_geom::{Layer, Rect, Shape};
use mp_base::{List, Name, NoMemory};
use pad_frame::PadSpot;
use pad_order::{Port, frame_ports};
use river_route::metal;
use std::alloc::Global;

/// What is drawn beside a fabric, in half-units, and the labels on its pads.
#[derive(Drop)]
pub struct Padding {
    pub extra: Shape,
    pub labels: List<ChipLabel>,
}

// The port of a label at this height.
fn port(alloc: Global, label: &ChipLabel, height: u32) -> Result<Port, NoMemory>
    ensures { IfOk result (λ port. (port.name ≡ label.now.name) × (port.height ≡ height)) }
{
    Ok(Port {
        name: Name::from_slice(alloc, label.name.bytes())?,
        height,
    })
}

// The ports of labels at these heights.
fn ports_of(alloc: Global, labels: &[ChipLabel], heights: &[u32]) -> Result<List<Port>, NoMemory>
    requires { length heights.now ≡ length labels.now }
    ensures { IfOk result (λ ports. ports ≡ ports_at labels.now heights.now) }
{
    let mut ports = List::new(alloc);
    for index in 0..labels.len() {
        let port = port(alloc, &labels[index], heights[index])?;
        ports.push(port)?;
    }
    Ok(ports)
}

// The label at a spot.
fn label(alloc: Global, spot: &PadSpot) -> Result<ChipLabel, NoMemory>
    requires { IsEvenSpot spot.now }
    ensures { IfOk result (IsAtSpot spot.now) }
{
    Ok(ChipLabel {
        name: Name::from_slice(alloc, spot.name.bytes())?,
        x: spot.x,
        y: spot.y,
        layer: Layer::NM,
    })
}

// The labels at these spots.
fn labels_on(alloc: Global, spots: &[PadSpot]) -> Result<List<ChipLabel>, NoMemory>
    requires { All IsEvenSpot spots.now }
    ensures { IfOk result (AllZip IsAtSpot spots.now) }
{
    let mut labels = List::new(alloc);
    for index in 0..spots.len() {
        let label = label(alloc, &spots[index])?;
        labels.push(label)?;
    }
    Ok(labels)
}

// The bridge from ground's pad to its trunk, and these rectangles.
fn with_bridge(alloc: Global, shape: &[Rect]) -> Result<Shape, NoMemory>
    ensures { IfOk result (λ extra. extra ≡ bridge ∷ shape.now) }
{
    let mut extra = List::new(alloc);
    extra.push(metal(0, 6, 7, 10))?;
    for rect in shape {
        extra.push(*rect)?;
    }
    Ok(extra)
}

/// Pads for labels whose nets have ports at these heights, in lambda: each label moves to the pad of its own port. The
/// second label is that of ground, whose pad is joined to the trunk by a bridge.
///
/// # Errors
/// Want of memory.
pub fn padded(alloc: Global, labels: &[ChipLabel], heights: &[u32]) -> Result<Padding, NoMemory>
    requires long { length heights.now ≡ length labels.now }
    requires parted { AreParted (ports_at labels.now heights.now) }
    ensures { IfOk result (IsPadded labels.now heights.now) }
{
    let ports = ports_of(alloc, labels, heights)?;
    let framed = frame_ports(alloc, ports.as_slice())?;
    let labels = labels_on(alloc, framed.spots.as_slice())?;
    let extra = with_bridge(alloc, framed.shape.as_slice())?;
    Ok(Padding { extra, labels })
}
