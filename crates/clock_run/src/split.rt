//! The nodes of bits by pads.

ghost use Rattle.std.specs.Prelude.{◌≡◌, IfOk, length, flat_map};
ghost use Rattle.std.specs.List.{AllZip};
ghost use Rattle.switch_net.specs.declared.network.Network.{Network};
ghost use Rattle.switch_net.specs.Clock.{IsLabelled};
ghost use Rattle.switch_net.specs.Pads.{bit_labels};
ghost use Rattle.mp_base.specs.PadBits.{bit_count};
ghost use Rattle.clock_run.specs.Plan.{AreNodesOf};

use mp_base::{List, Pad};
use std::alloc::{AllocError, Global};

/// The number of a pad's bits.
fn bit_count(pad: &Pad) -> usize
    ensures { result ≡ bit_count pad.now.width }
{
    if pad.width == 0 {
        1
    } else {
        pad.width as usize
    }
}

/// The nodes of each pad, where these are the nodes of all their bits.
pub(crate) fn split(
    alloc: Global,
    pads: &[Pad],
    nodes: &[u32],
) -> Result<List<List<u32>>, AllocError>
    requires { length nodes.now ≡ length (flat_map bit_labels pads.now) }
    ensures { IfOk result (λ own. (net : Network) → AllZip (IsLabelled net) (flat_map bit_labels pads.now) nodes.now
        → AllZip (AreNodesOf net) pads.now own) }
{
    let mut own = List::new(alloc);
    let mut start = 0;
    for pad in pads {
        let end = start + bit_count(pad);
        own.push(List::from_vec(nodes[start..end].to_vec(alloc)?))?;
        start = end;
    }
    Ok(own)
}
