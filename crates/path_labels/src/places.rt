//! Labels in the corners of the nets of a fabric.

ghost use Rattle.std.specs.Prelude.{◌≡◌, ◌<◌, ◌≤◌, ◌*◌, ◌^◌, get_or, length, pos};
ghost use Rattle.lam_geom.specs.Extent.{lambda};
ghost use Rattle.fabric.specs.Even.{IsEven};
ghost use Rattle.fabric.specs.Plan.{Plan};
ghost use Rattle.fabric.specs.Room.{limit};
ghost use Rattle.fabric.specs.Shape.{base};
ghost use Rattle.fabric.specs.Switches.Net.{ground, power, segment};
ghost use Rattle.chip_pads.specs.Heights.{port_low};
ghost use Rattle.chip_laws.specs.Labels.{IsInCorner};
ghost use Rattle.slice_chip.specs.Order.{nowhere};

use crate::corners::Corner;
use fabric::{ChipLabel, Fabric, Segment};
use lam_geom::Layer;
use mp_base::Name;

// So many lambda, in half-units.
fn half_units(count: u32) -> i64
    ensures even { IsEven result }
    ensures value { result ≡ pos (lambda * count) }
{
    2 * (250 * i64::from(count))
}

// The label of this name at the square whose lower left corner is so many lambda from the left and from the bottom.
fn label_at(name: Name, layer: Layer, x: u32, y: u32) -> ChipLabel
    ensures named { result.name ≡ name }
    ensures layer { result.layer ≡ layer }
    ensures x { result.x ≡ pos (lambda * x) }
    ensures y { result.y ≡ pos (lambda * y) }
{
    ChipLabel {
        name,
        x: half_units(x),
        y: half_units(y),
        layer,
    }
}

// The segment with this number.
fn segment_of(fabric: &Fabric, number: usize) -> Segment
    requires there { number < length fabric.now.segments }
    ensures is { result ≡ get_or fabric.now.segments number nowhere }
    ensures band { result.band < length fabric.now.rows }
    ensures first { result.first < limit }
    ensures row { result.row < limit }
{
    fabric.conditions();
    fabric.segments()[number]
}

// How many lambda the lowest row of a band stands above that of the fabric.
fn height_below(fabric: &Fabric, band: u32) -> u32
    requires there { band ≤ length fabric.now.rows }
    ensures is { result ≡ base fabric.now band }
    ensures low { result < 2 ^ 30 }
{
    fabric.conditions();
    let rows = fabric.rows();
    let mut height = 0;
    for index in 0..band {
        height += 12 * rows[index as usize] + 36;
    }
    height
}

// The height of power's port, which is in the row of pull-ups of the lowest band.
fn power_height(fabric: &Fabric) -> u32
    ensures { result ≡ port_low fabric.now power }
{
    fabric.conditions();
    12 * fabric.rows()[0] + 27
}

/// The label of this name on the metal of the segment with this number.
pub(crate) fn net_corner(fabric: &Fabric, number: usize, name: Name) -> Corner
    requires there { number < length fabric.now.segments }
    ensures named { result.label.name ≡ name }
    ensures there { IsInCorner fabric.now (segment (get_or fabric.now.segments number nowhere)) result.label }
    ensures high { result.height ≡ port_low fabric.now (segment (get_or fabric.now.segments number nowhere)) }
{
    let segment = segment_of(fabric, number);
    let below = height_below(fabric, segment.band);
    let height = below + 12 * segment.row + 6;
    Corner {
        label: label_at(name, Layer::NM, 20 * segment.first, height),
        height,
    }
}

/// The label of this name on the trunk of power.
pub(crate) fn power_corner(fabric: &Fabric, name: Name) -> Corner
    ensures named { result.label.name ≡ name }
    ensures there { IsInCorner fabric.now power result.label }
    ensures high { result.height ≡ port_low fabric.now power }
{
    fabric.conditions();
    Corner {
        label: label_at(name, Layer::NM, 20 * (fabric.columns() - 1) + 7, 0),
        height: power_height(fabric),
    }
}

/// The label of this name on the trunk of ground.
pub(crate) fn ground_corner(name: Name) -> Corner
    ensures named { result.label.name ≡ name }
    ensures there { (f : Plan) → IsInCorner f ground result.label }
    ensures high { (f : Plan) → result.height ≡ port_low f ground }
{
    Corner {
        label: label_at(name, Layer::NM, 7, 0),
        height: 6,
    }
}
