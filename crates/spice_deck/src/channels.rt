//! Channels, as transistors.

ghost use Rattle.std.specs.Prelude.{◌≡◌, ◌++◌, ℕ, IfOk, OnOk, slice_index};
ghost use Rattle.spice_deck.specs.Deck.{channel_text, ends_text, long, model, others, sides_text, transistor};
ghost use Rattle.spice_deck.specs.Numbered.{numbered};

use crate::text::{push_tagged, push_thousandths};
use mp_base::NoMemory;
use net_sizes::Sizes;
use std::alloc::AllocError;
use switch_net::{Channel, ChannelKind};

fn model(kind: ChannelKind) -> &'static [u8]
    ensures { result.now ≡ model kind }
{
    match kind {
        ChannelKind::Enhancement => b" 0 enhancement W={",
        ChannelKind::Depletion => b" 0 depletion W={",
        ChannelKind::Partial => b" 0 partial W={",
    }
}

// The length in thousandths of lambda. An area of 2^126 counts as want of memory.
fn long(area: u128, edge: u128) -> Result<u128, NoMemory>
    ensures { IfOk result (λ n. n ≡ long area edge) }
{
    if edge == 0 {
        return Ok(0);
    }
    let Some(fourfold) = area.checked_mul(4) else {
        return Err(NoMemory);
    };
    Ok(fourfold / edge)
}

// Adds the width and the length. Half of the edge has as many thousandths of lambda as the edge has half-units.
#[tactic(auto, unfolding(crate::specs::Deck::sides_text))]
fn push_sides(text: &mut Vec<u8>, area: u128, edge: u128) -> Result<(), NoMemory>
    ensures { OnOk result (text.new.items ≡ text.old.items ++ sides_text area edge) }
{
    let long = long(area, edge)?;
    push_thousandths(text, edge)?;
    text.extend_from_slice(b"*lambda} L={")?;
    push_thousandths(text, long)?;
    text.extend_from_slice(b"*lambda}\n")?;
    Ok(())
}

#[tactic(auto, unfolding(crate::specs::Deck::ends_text))]
fn push_ends(
    text: &mut Vec<u8>,
    number: u64,
    gate: u32,
    first: u32,
    end: u32,
) -> Result<(), AllocError>
    ensures { OnOk result (text.new.items ≡ text.old.items ++ ends_text number gate first end) }
{
    push_tagged(text, b"M", number)?;
    push_tagged(text, b"_", end as u64)?;
    push_tagged(text, b" n", first as u64)?;
    push_tagged(text, b" n", gate as u64)?;
    push_tagged(text, b" n", end as u64)
}

// The size with this number, or 0 past the last.
fn size_at(sizes: &[u128], number: usize) -> u128
    ensures { result ≡ slice_index sizes.now number }
{
    match sizes.get(number) {
        Some(size) => *size,
        None => 0,
    }
}

#[tactic(auto, unfolding(crate::specs::Deck::transistor))]
fn push_transistor(
    text: &mut Vec<u8>,
    sizes: &Sizes,
    number: usize,
    channel: &Channel,
    first: u32,
    end: u32,
) -> Result<(), NoMemory>
    ensures { OnOk result (text.new.items ≡ text.old.items ++ transistor sizes.now number channel.now first end) }
{
    push_ends(text, number as u64, channel.gate, first, end)?;
    text.extend_from_slice(model(channel.kind))?;
    let area = size_at(sizes.areas.as_slice(), number);
    let edge = size_at(sizes.edges.as_slice(), number);
    push_sides(text, area, edge)
}

// The ends that a channel joins to its first one.
fn others(ends: &[u32]) -> &[u32]
    ensures { result.now ≡ others ends.now }
{
    match ends {
        [] | [_] => ends,
        [_, rest @ ..] => rest,
    }
}

fn push_channel(
    text: &mut Vec<u8>,
    sizes: &Sizes,
    number: usize,
    channel: &Channel,
) -> Result<(), NoMemory>
    ensures { OnOk result (text.new.items ≡ text.old.items ++ channel_text sizes.now number channel.now) }
{
    let ends = channel.ends.as_slice();
    let first = match ends {
        [] => 0,
        [first, ..] => *first,
    };
    for end in others(ends) {
        push_transistor(text, sizes, number, channel, first, *end)?;
    }
    Ok(())
}

/// Adds all channels.
pub(crate) fn push_channels(
    text: &mut Vec<u8>,
    sizes: &Sizes,
    channels: &[Channel],
) -> Result<(), NoMemory>
    ensures { OnOk result (text.new.items ≡ text.old.items ++ numbered (channel_text sizes.now) 0 channels.now) }
{
    for (k, channel) in channels.iter().enumerate() {
        push_channel(text, sizes, k, channel)?;
    }
    Ok(())
}
