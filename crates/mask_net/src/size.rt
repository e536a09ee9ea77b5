//! The line that tells the size of a network.

ghost use Rattle.std.specs.Prelude.{◌≡◌, IfOk};
ghost use Rattle.switch_net.specs.Sizes.{channels_of, same_kind};
ghost use Rattle.mask_net.specs.SizeLine.{size_line, size_text};

use mp_base::push_number;
use std::alloc::{AllocError, Global};
use switch_net::{ChannelKind, Network};

fn same_kind(a: ChannelKind, b: ChannelKind) -> bool
    ensures { result ≡ same_kind a b }
{
    matches!(
        (a, b),
        (ChannelKind::Enhancement, ChannelKind::Enhancement)
            | (ChannelKind::Depletion, ChannelKind::Depletion)
            | (ChannelKind::Partial, ChannelKind::Partial)
    )
}

// How many channels are of a kind.
fn channels_of(net: &Network, kind: ChannelKind) -> usize
    ensures { result ≡ channels_of net.now kind }
{
    net.channels
        .as_slice()
        .iter()
        .filter(|channel| same_kind(kind, channel.kind))
        .count()
}

/// The size of a network, `nodes N enhancement N depletion N partial N`.
///
/// # Errors
///
/// Want of memory.
pub fn size_text(alloc: Global, net: &Network) -> Result<Vec<u8>, AllocError>
    ensures { IfOk result (λ text. text.items ≡ size_text net.now) }
{
    let mut text = Vec::from_slice(alloc, b"nodes ")?;
    push_number(&mut text, net.nodes as u64)?;
    text.extend_from_slice(b" enhancement ")?;
    push_number(&mut text, channels_of(net, ChannelKind::Enhancement) as u64)?;
    text.extend_from_slice(b" depletion ")?;
    push_number(&mut text, channels_of(net, ChannelKind::Depletion) as u64)?;
    text.extend_from_slice(b" partial ")?;
    push_number(&mut text, channels_of(net, ChannelKind::Partial) as u64)?;
    Ok(text)
}

/// The size line of a network: its size, and a line feed.
///
/// # Errors
///
/// Want of memory.
pub fn size_line(alloc: Global, net: &Network) -> Result<Vec<u8>, AllocError>
    ensures { IfOk result (λ text. text.items ≡ size_line net.now) }
{
    let mut text = size_text(alloc, net)?;
    text.push(b'\n')?;
    Ok(text)
}
