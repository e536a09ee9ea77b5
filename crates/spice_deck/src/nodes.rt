//! Nodes, as capacitors.

ghost use Rattle.std.specs.Prelude.{◌≡◌, ◌++◌, OnOk, slice_index};
ghost use Rattle.spice_deck.specs.Deck.{areas_text, node_text, square, thousandths};
ghost use Rattle.spice_deck.specs.Numbered.{texts_below};

use crate::text::{push_tagged, push_thousandths};
use net_sizes::Sizes;
use std::alloc::AllocError;

// Adds the area with this number, or 0 past the last, in square lambda.
fn push_square(text: &mut Vec<u8>, areas: &[u128], number: usize) -> Result<(), AllocError>
    ensures { OnOk result (text.new.items ≡ text.old.items ++ thousandths (square (slice_index areas.now number))) }
{
    match areas.get(number) {
        Some(area) => push_thousandths(text, *area / 250),
        None => push_thousandths(text, 0),
    }
}

#[tactic(auto, unfolding(crate::specs::Deck::areas_text))]
fn push_areas(text: &mut Vec<u8>, sizes: &Sizes, number: usize) -> Result<(), AllocError>
    ensures { OnOk result (text.new.items ≡ text.old.items ++ areas_text sizes.now number) }
{
    push_square(text, sizes.metal.as_slice(), number)?;
    text.extend_from_slice(b"*metal+")?;
    push_square(text, sizes.polysilicon.as_slice(), number)?;
    text.extend_from_slice(b"*polysilicon+")?;
    push_square(text, sizes.diffusion.as_slice(), number)?;
    text.extend_from_slice(b"*diffusion}\n")
}

#[tactic(auto, unfolding(crate::specs::Deck::node_text))]
fn push_node(text: &mut Vec<u8>, sizes: &Sizes, number: u32) -> Result<(), AllocError>
    ensures { OnOk result (text.new.items ≡ text.old.items ++ node_text sizes.now number) }
{
    push_tagged(text, b"C", number as u64)?;
    push_tagged(text, b" n", number as u64)?;
    text.extend_from_slice(b" 0 {")?;
    push_areas(text, sizes, number as usize)
}

/// Adds all nodes, of which there are so many.
pub(crate) fn push_nodes(text: &mut Vec<u8>, sizes: &Sizes, count: u32) -> Result<(), AllocError>
    ensures { OnOk result (text.new.items ≡ text.old.items ++ texts_below (node_text sizes.now) count) }
{
    for number in 0..count {
        push_node(text, sizes, number)?;
    }
    Ok(())
}
