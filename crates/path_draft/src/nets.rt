//! Nets by drafts of their parts.

ghost use Rattle.std.specs.Prelude.{◌≡◌, ◌↔◌, ◌<◌, ◌+◌, IfOk, IfSome, IsTrue, All, length, slice_get};
ghost use Rattle.nor_net.specs.Shape.{IsFed, MayFeed, MayTake, gate_inputs, net_limit};

use crate::draft::DraftPart;
use mp_base::NoMemory;
use nor_net::{Net, NetId, NetKind, Phase};
use std::alloc::Global;

// There are fewer nets than this, and fewer inputs of gates.
const NET_LIMIT: u32 = 1 << 24;

// Whether all these nets stand before this number.
fn stand_before(nets: &[NetId], end: u32) -> bool
    ensures { IsTrue result ↔ All (λ j. j.0 < end) nets.now }
{
    nets.iter().all(|net| net.0 < end)
}

// Adds a part at the end, if it may stand there; latches aren't fed yet. There is room for as many inputs of gates;
// tells for how many then.
fn add(alloc: Global, net: &mut Net, room: u32, part: &DraftPart) -> Result<Option<u32>, NoMemory>
    requires { gate_inputs net.old + room < net_limit }
    ensures { IfOk result (λ left. IfSome left (λ left. gate_inputs net.new + left < net_limit)) }
{
    if net.len() + 1 >= NET_LIMIT {
        return Ok(None);
    }
    match part {
        DraftPart::Input => {
            net.input()?;
            Ok(Some(room))
        }
        DraftPart::Gate(inputs) => {
            let inputs = inputs.as_slice();
            if (room as usize) < inputs.len() || !stand_before(inputs, net.len()) {
                return Ok(None);
            }
            net.gate(alloc, inputs)?;
            Ok(Some(room - inputs.len() as u32))
        }
        DraftPart::Latch { phase, .. } => {
            net.latch(*phase)?;
            Ok(Some(room))
        }
    }
}

// Whether a latch of this phase may take its data from this net.
fn may_feed(net: &Net, phase: Phase, source: NetId) -> bool
    ensures { IsTrue result → MayFeed phase (slice_get net.now source.0) }
{
    if source.0 < net.len() {
        match net.kind(source) {
            NetKind::Gate => true,
            NetKind::Input => phase == Phase::C,
            NetKind::Latch { .. } => false,
        }
    } else {
        false
    }
}

// Whether this net is a latch without data, and may take them from that.
fn may_take(net: &Net, latch: NetId, source: NetId) -> bool
    ensures { IsTrue result → MayTake (slice_get net.now latch.0) (slice_get net.now source.0) }
{
    if latch.0 < net.len() {
        match net.kind(latch) {
            NetKind::Latch {
                phase,
                source: None,
            } => may_feed(net, phase, source),
            _ => false,
        }
    } else {
        false
    }
}

// Feeds the latches that may take their data.
fn feed(net: &mut Net, parts: &[DraftPart]) {
    for index in 0..parts.len() {
        if let DraftPart::Latch { source, .. } = &parts[index] {
            let latch = NetId(u32::try_from(index).unwrap_or(0));
            if may_take(net, latch, *source) {
                net.feed(latch, *source);
            }
        }
    }
}

// Adds all parts, if they may stand there.
fn add_all(alloc: Global, net: &mut Net, parts: &[DraftPart]) -> Result<bool, NoMemory>
    requires { gate_inputs net.old ≡ 0 }
{
    let mut room = NET_LIMIT - 1;
    for part in parts {
        match add(alloc, net, room, part)? {
            Some(left) => room = left,
            None => return Ok(false),
        }
    }
    Ok(true)
}

/// The net of these parts, if they may stand so.
pub(crate) fn net_of(alloc: Global, parts: &[DraftPart]) -> Result<Option<Net>, NoMemory>
    ensures { IfOk result (λ net. IfSome net IsFed) }
{
    let mut net = Net::new(alloc);
    let whole = add_all(alloc, &mut net, parts)?;
    feed(&mut net, parts);
    if whole && net.is_fed() {
        Ok(Some(net))
    } else {
        Ok(None)
    }
}
