//! The labels of pads.

ghost use Rattle.std.specs.Prelude.{◌≡◌, ◌++◌, ◌∷◌, [], flat_map, OnOk, IfOk};
ghost use Rattle.mp_base.specs.PadNames.{supplies};
ghost use Rattle.switch_net.specs.Pads.{word_labels, bit_labels, driver_labels};

use itoa::Buffer;
use mp_base::{List, Name, Pad};
use std::alloc::{AllocError, Global};

/// Adds a label.
fn add_label(alloc: Global, labels: &mut List<Name>, label: &[u8]) -> Result<(), AllocError>
    ensures { OnOk result (labels.new ≡ labels.old ++ label.now ∷ []) }
{
    labels.push(Name::from_slice(alloc, label)?)
}

/// Adds the labels of a word's bits.
fn add_word(
    alloc: Global,
    labels: &mut List<Name>,
    name: &[u8],
    width: u8,
) -> Result<(), AllocError>
    ensures { OnOk result (labels.new ≡ labels.old ++ word_labels name.now width) }
{
    for k in 0..width {
        let mut buffer = Buffer::new();
        let mut text = Vec::from_slice(alloc, name)?;
        text.push(b'.')?;
        text.extend_from_slice(buffer.format(k).as_bytes())?;
        labels.push(Name::from_vec(text))?;
    }
    Ok(())
}

/// Adds the labels of a pad's bits.
fn add_pad(alloc: Global, labels: &mut List<Name>, pad: &Pad) -> Result<(), AllocError>
    ensures { OnOk result (labels.new ≡ labels.old ++ bit_labels pad.now) }
{
    if pad.width == 0 {
        add_label(alloc, labels, pad.name.bytes())
    } else {
        add_word(alloc, labels, pad.name.bytes(), pad.width)
    }
}

/// Adds the labels of the bits of pads.
pub(crate) fn add_pads(
    alloc: Global,
    labels: &mut List<Name>,
    pads: &[Pad],
) -> Result<(), AllocError>
    ensures { OnOk result (labels.new ≡ labels.old ++ flat_map bit_labels pads.now) }
{
    for pad in pads {
        add_pad(alloc, labels, pad)?;
    }
    Ok(())
}

/// Adds the labels of power, ground and the phases.
fn add_supplies(alloc: Global, labels: &mut List<Name>) -> Result<(), AllocError>
    ensures { OnOk result (labels.new ≡ labels.old ++ supplies) }
{
    add_label(alloc, labels, b"vdd")?;
    add_label(alloc, labels, b"gnd")?;
    add_label(alloc, labels, b"phia")?;
    add_label(alloc, labels, b"phib")?;
    add_label(alloc, labels, b"phic")?;
    Ok(())
}

/// The labels of what is driven from outside.
pub(crate) fn driver_labels(alloc: Global, inputs: &[Pad]) -> Result<List<Name>, AllocError>
    ensures { IfOk result (λ labels. labels ≡ driver_labels inputs.now) }
{
    let mut labels = List::new(alloc);
    add_supplies(alloc, &mut labels)?;
    add_pads(alloc, &mut labels, inputs)?;
    Ok(labels)
}
