//! Pins, one a label.

ghost use Rattle.std.specs.Prelude.{◌≡◌, ◌++◌, OnOk};
ghost use Rattle.spice_deck.specs.Deck.{pin_name, pin_text, pins_text, wire_text};
ghost use Rattle.spice_deck.specs.Numbered.{numbered};

use crate::text::{push_plain, push_tagged};
use std::alloc::AllocError;
use switch_net::Tag;

#[tactic(auto, unfolding(crate::specs::Deck::pin_name))]
fn push_name(text: &mut Vec<u8>, number: u64, tag: &Tag) -> Result<(), AllocError>
    ensures { OnOk result (text.new.items ≡ text.old.items ++ pin_name number tag.now) }
{
    push_plain(text, tag.name.bytes())?;
    push_tagged(text, b"_", number)
}

#[tactic(auto, unfolding(crate::specs::Deck::pin_text))]
fn push_pin(text: &mut Vec<u8>, number: u64, tag: &Tag) -> Result<(), AllocError>
    ensures { OnOk result (text.new.items ≡ text.old.items ++ pin_text number tag.now) }
{
    text.extend_from_slice(b"\n+ ")?;
    push_name(text, number, tag)
}

#[tactic(auto, unfolding(crate::specs::Deck::wire_text))]
fn push_wire(text: &mut Vec<u8>, number: u64, tag: &Tag) -> Result<(), AllocError>
    ensures { OnOk result (text.new.items ≡ text.old.items ++ wire_text number tag.now) }
{
    push_tagged(text, b"R", number)?;
    text.extend_from_slice(b" ")?;
    push_name(text, number, tag)?;
    push_tagged(text, b" n", tag.node as u64)?;
    text.extend_from_slice(b" {wire}\n")
}

fn push_all_pins(text: &mut Vec<u8>, tags: &[Tag]) -> Result<(), AllocError>
    ensures { OnOk result (text.new.items ≡ text.old.items ++ numbered pin_text 0 tags.now) }
{
    for (k, tag) in tags.iter().enumerate() {
        push_pin(text, k as u64, tag)?;
    }
    Ok(())
}

fn push_all_wires(text: &mut Vec<u8>, tags: &[Tag]) -> Result<(), AllocError>
    ensures { OnOk result (text.new.items ≡ text.old.items ++ numbered wire_text 0 tags.now) }
{
    for (k, tag) in tags.iter().enumerate() {
        push_wire(text, k as u64, tag)?;
    }
    Ok(())
}

/// Adds what stands before the channels: the pins, and the wires from them to their nodes.
#[tactic(auto, unfolding(crate::specs::Deck::pins_text))]
pub(crate) fn push_pins(text: &mut Vec<u8>, tags: &[Tag]) -> Result<(), AllocError>
    ensures { OnOk result (text.new.items ≡ text.old.items ++ pins_text tags.now) }
{
    text.extend_from_slice(
        b"* by mask_spice: parameters lambda, wire, metal, polysilicon, diffusion\n.subckt masks",
    )?;
    push_all_pins(text, tags)?;
    text.extend_from_slice(b"\n")?;
    push_all_wires(text, tags)
}
