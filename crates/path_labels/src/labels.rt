//! The labels of a chip, in the order of its pads.

ghost use Rattle.std.specs.Prelude.{◌≡◌, ◌<◌, ◌+◌, ◌*◌, ◌++◌, ◌∷◌, [], suc, codes, flat_map, length, map, IfOk, OnOk};
ghost use Rattle.std.specs.List.{AllZip, range_with_len};
ghost use Rattle.std.specs.Fmt.{decimal};
ghost use Rattle.mp_base.specs.PadNames.{supplies};
ghost use Rattle.switch_net.specs.Pads.{bit_labels, chip_labels, word_labels};
ghost use Rattle.nor_net.specs.Elements.{spot};
ghost use Rattle.nor_net.specs.declared.net.Phase.TheVariants.{A, B, C};
ghost use Rattle.drawing.specs.Draws.{Ground, OfNet, OfPhase, Power};
ghost use Rattle.array_form.specs.Homes.{phase_number};
ghost use Rattle.path_form.specs.Showing.{pad_bits, pad_spot};
ghost use Rattle.chip_laws.specs.Laws.{names_of};
ghost use Rattle.chip_laws.specs.Rows.{rows_at};
ghost use Rattle.path_labels.specs.Corners.{no_corners};
ghost use Rattle.path_labels.specs.Labels.{Adds, AreEntriesOf, IsAtPoint, IsEntryOf, height_at, label_points};
ghost use Rattle.path_labels.specs.Labels.{points_in, segments_of};

use crate::corners::{Corner, Corners};
use crate::places::{ground_corner, net_corner, power_corner};
use fabric::Fabric;
use itoa::Buffer;
use mp_base::{List, Name, NoMemory, Pad};
use nor_net::{NetId, Phase};
use path_form::DataPath;
use std::alloc::Global;

// The number of the segment of a net of slice k.
fn slice_segment(path: &DataPath, k: u8, net: NetId) -> usize
    ensures { result ≡ length path.now.control + 3 + (k * (length path.now.slices.net + 3) + net.0) }
{
    let each = path.slices.net.len() as usize + 3;
    path.control.len() as usize + 3 + (k as usize * each + net.0 as usize)
}

// The label of bit k of a word.
fn bit_name(alloc: Global, name: &[u8], k: u8) -> Result<Name, NoMemory>
    ensures { IfOk result (λ label. label ≡ name.now ++ (codes "." ++ decimal k)) }
{
    let mut buffer = Buffer::new();
    let mut text = Vec::from_slice(alloc, name)?;
    text.extend_from_slice(b".")?;
    text.extend_from_slice(buffer.format(k).as_bytes())?;
    Ok(Name::from_vec(text))
}

// Adds the labels of a word's bits.
fn add_word(
    alloc: Global,
    corners: &mut Corners,
    fabric: &Fabric,
    path: &DataPath,
    name: &[u8],
    net: NetId,
) -> Result<(), NoMemory>
    requires segments { length fabric.now.segments ≡ segments_of path.now }
    requires there { net.0 < length path.now.slices.net }
    ensures { OnOk result (Adds path.now fabric.now
        (map (λ k. OfNet (spot (suc k) net)) (range_with_len 0 path.now.width)) (word_labels name.now path.now.width)
        corners.old corners.new) }
{
    for k in 0..path.width {
        let name = bit_name(alloc, name, k)?;
        corners.push(net_corner(fabric, slice_segment(path, k, net), name))?;
    }
    Ok(())
}

// Adds the labels of a pad's bits.
fn add_pad(
    alloc: Global,
    corners: &mut Corners,
    fabric: &Fabric,
    path: &DataPath,
    pad: &Pad,
    net: NetId,
) -> Result<(), NoMemory>
    requires segments { length fabric.now.segments ≡ segments_of path.now }
    requires entry { IsEntryOf path.now pad.now net }
    ensures { OnOk result (Adds path.now fabric.now
        (map OfNet (map (pad_spot pad.now net) (range_with_len 0 (pad_bits pad.now)))) (bit_labels pad.now) corners.old
        corners.new) }
{
    if pad.width == 0 {
        let name = Name::from_slice(alloc, pad.name.bytes())?;
        corners.push(net_corner(fabric, net.0 as usize, name))?;
        Ok(())
    } else {
        add_word(alloc, corners, fabric, path, pad.name.bytes(), net)
    }
}

// Adds the labels of the bits of pads.
fn add_pads(
    alloc: Global,
    corners: &mut Corners,
    fabric: &Fabric,
    path: &DataPath,
    pads: &[Pad],
    nets: &[NetId],
) -> Result<(), NoMemory>
    requires segments { length fabric.now.segments ≡ segments_of path.now }
    requires entries { AreEntriesOf path.now pads.now nets.now }
    ensures { OnOk result (Adds path.now fabric.now (points_in (rows_at pads.now nets.now))
        (flat_map bit_labels pads.now) corners.old corners.new) }
{
    for index in 0..pads.len() {
        add_pad(alloc, corners, fabric, path, &pads[index], nets[index])?;
    }
    Ok(())
}

// The number of the segment of a phase in the control's band.
fn phase_segment(path: &DataPath, phase: Phase) -> usize
    ensures { result ≡ length path.now.control + phase_number phase }
{
    let number = match phase {
        Phase::A => 0,
        Phase::B => 1,
        Phase::C => 2,
    };
    path.control.len() as usize + number
}

// The label of a phase.
fn clock_corner(
    alloc: Global,
    fabric: &Fabric,
    path: &DataPath,
    phase: Phase,
    name: &[u8],
) -> Result<Corner, NoMemory>
    requires segments { length fabric.now.segments ≡ segments_of path.now }
    ensures named { IfOk result (λ corner. corner.label.name ≡ name.now) }
    ensures there { IfOk result (λ corner. IsAtPoint path.now fabric.now (OfPhase phase) corner.label) }
    ensures high { IfOk result (λ corner. corner.height ≡ height_at path.now fabric.now (OfPhase phase)) }
{
    Ok(net_corner(
        fabric,
        phase_segment(path, phase),
        Name::from_slice(alloc, name)?,
    ))
}

// No labels.
fn none(alloc: Global) -> Corners
    ensures { result ≡ no_corners }
{
    Corners {
        labels: List::new(alloc),
        heights: List::new(alloc),
    }
}

// The labels of the supplies and phases.
fn supply_corners(alloc: Global, fabric: &Fabric, path: &DataPath) -> Result<Corners, NoMemory>
    requires segments { length fabric.now.segments ≡ segments_of path.now }
    ensures { IfOk result (Adds path.now fabric.now (Power ∷ Ground ∷ OfPhase A ∷ OfPhase B ∷ OfPhase C ∷ []) supplies
        no_corners) }
{
    let mut corners = none(alloc);
    corners.push(power_corner(fabric, Name::from_slice(alloc, b"vdd")?))?;
    corners.push(ground_corner(Name::from_slice(alloc, b"gnd")?))?;
    corners.push(clock_corner(alloc, fabric, path, Phase::A, b"phia")?)?;
    corners.push(clock_corner(alloc, fabric, path, Phase::B, b"phib")?)?;
    corners.push(clock_corner(alloc, fabric, path, Phase::C, b"phic")?)?;
    Ok(corners)
}

/// The labels of a chip whose fabric has the segments of a data path, band by band: those of power, ground and the
/// phases, then of the bits of inputs and of outputs, each in the lower left corner of its net; and for each how high
/// the port of its net lies, in lambda.
///
/// # Errors
///
/// `NoMemory`.
pub fn corners_of(alloc: Global, fabric: &Fabric, path: &DataPath) -> Result<Corners, NoMemory>
    requires segments { length fabric.now.segments ≡ segments_of path.now }
    ensures named { IfOk result (λ corners. names_of corners.labels ≡ chip_labels path.now.pads) }
    ensures there { IfOk result (λ corners. AllZip (IsAtPoint path.now fabric.now) (label_points path.now) corners.labels) }
    ensures high { IfOk result
        (λ corners. corners.heights ≡ map (height_at path.now fabric.now) (label_points path.now)) }
{
    let mut corners = supply_corners(alloc, fabric, path)?;
    let (inputs, outputs) = (path.pads.inputs.as_slice(), path.pads.outputs.as_slice());
    add_pads(
        alloc,
        &mut corners,
        fabric,
        path,
        inputs,
        path.inputs.as_slice(),
    )?;
    add_pads(
        alloc,
        &mut corners,
        fabric,
        path,
        outputs,
        path.outputs.as_slice(),
    )?;
    Ok(corners)
}
