//! The chip of a data path's fabric.

ghost use Rattle.std.specs.Prelude.{IfOk};
ghost use Rattle.cif_emit.specs.Emittable.{IsEmittable, chip_rects};
ghost use Rattle.slice_chip.specs.Unders.{IsLed};
ghost use Rattle.path_plan.specs.Paths.{IsChipFor, IsLight};

use chip_laws::laws::{fabric_lays, fabrics_are_few, labels_fit, labels_stand};
use chip_pads::laws::{pads_are_glued, unders_add_nothing};
use fabric::{Chip, Fabric};
use framed_chips::laws::{corners_are_padded, framed_chips_are_kept};
use mp_base::NoMemory;
use padded_chips::laws::pads_keep_layouts;
use padded_labels::padded;
use path_form::DataPath;
use path_labels::corners_of;
use slice_chip::laws::{segments_in_order, sliced_chips_draw, sliced_is_small, things_are_few};
use std::alloc::Global;
use switch_net::laws::chip_labels_differ;

/// The chip of a path's fabric, with a pad for each supply and phase and for each bit of the path's pads: the label of
/// each stands on its pad.
pub(crate) fn chip_of(alloc: Global, path: &DataPath, fabric: Fabric) -> Result<Chip, NoMemory>
    requires led { IsLed path.now fabric }
    requires light { IsLight path.now }
    ensures chip { IfOk result (IsChipFor path.now fabric) }
    ensures emittable { IfOk result (λ chip. IsEmittable (chip_rects chip) chip.labels) }
{
    chip_labels_differ();
    segments_in_order();
    sliced_chips_draw();
    sliced_is_small();
    things_are_few();
    labels_stand();
    fabric_lays();
    labels_fit();
    fabrics_are_few();
    unders_add_nothing();
    corners_are_padded();
    pads_are_glued();
    pads_keep_layouts();
    framed_chips_are_kept();
    // What every net and every fabric keeps.
    let _control = path.control.len();
    let _slices = path.slices.net.len();
    fabric.conditions();
    // A network of the fabric's switches: there is one, since it can be made.
    let _network = fabric.switches(alloc)?;
    let corners = corners_of(alloc, &fabric, path)?;
    let padding = padded(alloc, corners.labels.as_slice(), corners.heights.as_slice())?;
    Ok(Chip {
        fabric,
        extra: padding.extra,
        labels: padding.labels,
    })
}
