//! Decks.

ghost use Rattle.std.specs.Prelude.{◌≡◌, IfOk};
ghost use Rattle.spice_deck.specs.Deck.{deck_text};

use crate::channels::push_channels;
use crate::nodes::push_nodes;
use crate::pins::push_pins;
use mp_base::NoMemory;
use net_sizes::Sizes;
use std::alloc::Global;
use switch_net::Network;

/// A network with the sizes of its channels and nodes, as a subcircuit `masks` for SPICE. Its pins are the labels. Each
/// channel is a transistor between its ends, and each node has a capacitor. Areas of 2^126 square half-units count as
/// want of memory.
///
/// # Errors
///
/// Want of memory.
#[tactic(auto, unfolding(crate::specs::Deck::deck_text))]
pub fn deck(alloc: Global, net: &Network, sizes: &Sizes) -> Result<Vec<u8>, NoMemory>
    ensures { IfOk result (λ text. text.items ≡ deck_text net.now sizes.now) }
{
    let mut text = Vec::new(alloc);
    push_pins(&mut text, net.tags.as_slice())?;
    push_channels(&mut text, sizes, net.channels.as_slice())?;
    push_nodes(&mut text, sizes, net.nodes)?;
    text.extend_from_slice(b".ends\n")?;
    Ok(text)
}
