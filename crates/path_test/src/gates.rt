//! What gates and latches become.

ghost use Rattle.std.specs.Prelude.{◌≡◌, ◌==◌, [], ◌∷◌, Some, IfSome, IsTrue, slice_get};
ghost use Rattle.std.specs.List.{list_all, list_any};
ghost use Rattle.nor_net.specs.declared.net.NetId as net_id;
ghost use Rattle.nor_net.specs.declared.net.Part.TheVariants.{Gate, Latch};
ghost use Rattle.path_reduce.specs.Tables.{becomes_at};
ghost use Rattle.path_test.specs.Becoming.{BecomeNets, GateBecomes, LatchBecomes, OnImages, OnInverse, is_among};
ghost use Rattle.path_test.specs.Becoming.{is_high, is_low, is_net, stays};

use nor_net::{Net, NetId, NetKind, Phase};
use path_reduce::Becomes;

/// What a net becomes; what the table doesn't have is left out.
pub(crate) fn becomes_at(table: &[Becomes], net: NetId) -> Becomes
    ensures { result ≡ becomes_at table.now net.0 }
{
    match table.get(net.0 as usize) {
        Some(becomes) => *becomes,
        None => Becomes::LeftOut,
    }
}

/// Whether it isn't left out.
pub(crate) fn stays(becomes: Becomes) -> bool
    ensures { result ≡ stays becomes }
{
    !matches!(becomes, Becomes::LeftOut)
}

pub(crate) fn is_low(becomes: Becomes) -> bool
    ensures { result ≡ is_low becomes }
{
    matches!(becomes, Becomes::Low)
}

pub(crate) fn is_high(becomes: Becomes) -> bool
    ensures { result ≡ is_high becomes }
{
    matches!(becomes, Becomes::High)
}

/// Whether it is this net.
pub(crate) fn is_net(becomes: Becomes, net: NetId) -> bool
    ensures { result ≡ is_net net becomes }
{
    match becomes {
        Becomes::Net(other) => other.0 == net.0,
        _ => false,
    }
}

// Whether these nets include one.
fn includes(nets: &[NetId], net: NetId) -> bool
    ensures { result ≡ list_any (λ (other : net_id.NetId). other.0 == net.0) nets.now }
{
    nets.iter().any(|other| other.0 == net.0)
}

// Whether an input is always 0, or becomes one of these nets.
fn is_among(table: &[Becomes], input: NetId, others: &[NetId]) -> bool
    ensures { result ≡ is_among others.now (becomes_at table.now input.0) }
{
    match becomes_at(table, input) {
        Becomes::Low => true,
        Becomes::Net(net) => includes(others, net),
        _ => false,
    }
}

// Whether some input becomes this net.
fn is_wanted(table: &[Becomes], inputs: &[NetId], net: NetId) -> bool
    ensures { result ≡ list_any (λ (m : net_id.NetId). is_net net (becomes_at table.now m.0)) inputs.now }
{
    inputs
        .iter()
        .any(|input| is_net(becomes_at(table, *input), net))
}

// Whether each input is always 0, or becomes one of these nets.
fn are_among(table: &[Becomes], inputs: &[NetId], others: &[NetId]) -> bool
    ensures { result ≡ list_all (λ (m : net_id.NetId). is_among others.now (becomes_at table.now m.0)) inputs.now }
{
    inputs.iter().all(|input| is_among(table, *input, others))
}

// Whether some input becomes each of these nets.
fn are_wanted(table: &[Becomes], inputs: &[NetId], others: &[NetId]) -> bool
    ensures { result ≡ list_all (λ (k : net_id.NetId).
        list_any (λ (m : net_id.NetId). is_net k (becomes_at table.now m.0)) inputs.now) others.now }
{
    others.iter().all(|other| is_wanted(table, inputs, *other))
}

// Whether the inputs, but for those that are always 0, become these nets.
fn become_nets(table: &[Becomes], inputs: &[NetId], others: &[NetId]) -> bool
    ensures { IsTrue result → BecomeNets table.now inputs.now others.now }
{
    are_among(table, inputs, others) && are_wanted(table, inputs, others)
}

// The inputs of a gate, if that is one.
fn gate_of(net: &Net, id: NetId) -> Option<&[NetId]>
    ensures { IfSome result (λ inputs. slice_get net.now id.0 ≡ Some (Gate inputs.now)) }
{
    if id.0 < net.len() && net.kind(id) == NetKind::Gate {
        Some(net.gate_inputs(id))
    } else {
        None
    }
}

// Whether this is a gate on what the inputs become.
fn is_on_images(table: &[Becomes], inputs: &[NetId], net: &Net, gate: NetId) -> bool
    ensures { IsTrue result → OnImages table.now net.now inputs.now gate }
{
    match gate_of(net, gate) {
        Some(others) => become_nets(table, inputs, others),
        None => false,
    }
}

// The first net that an input becomes.
fn first_net(table: &[Becomes], inputs: &[NetId]) -> Option<NetId> {
    for input in inputs {
        if let Becomes::Net(net) = becomes_at(table, *input) {
            return Some(net);
        }
    }
    None
}

// Whether a net is a gate on this one alone.
fn inverts(net: &Net, gate: NetId, input: NetId) -> bool
    ensures { IsTrue result → slice_get net.now gate.0 ≡ Some (Gate (input ∷ [])) }
{
    match gate_of(net, gate) {
        Some([only]) => only.0 == input.0,
        _ => false,
    }
}

// Whether the inputs become one net, which inverts this one.
fn is_on_inverse(table: &[Becomes], inputs: &[NetId], net: &Net, gate: NetId) -> bool
    ensures { IsTrue result → OnInverse table.now net.now inputs.now gate }
{
    match first_net(table, inputs) {
        Some(first) => inverts(net, first, gate) && become_nets(table, inputs, &[first]),
        None => false,
    }
}

// Whether no input is left out.
fn all_stay(table: &[Becomes], inputs: &[NetId]) -> bool
    ensures { result ≡ list_all (λ (m : net_id.NetId). stays (becomes_at table.now m.0)) inputs.now }
{
    inputs.iter().all(|input| stays(becomes_at(table, *input)))
}

// Whether some input is always 1.
fn has_high(table: &[Becomes], inputs: &[NetId]) -> bool
    ensures { result ≡ list_any (λ (m : net_id.NetId). is_high (becomes_at table.now m.0)) inputs.now }
{
    inputs
        .iter()
        .any(|input| is_high(becomes_at(table, *input)))
}

// Whether all inputs are always 0.
fn are_low(table: &[Becomes], inputs: &[NetId]) -> bool
    ensures { result ≡ list_all (λ (m : net_id.NetId). is_low (becomes_at table.now m.0)) inputs.now }
{
    inputs.iter().all(|input| is_low(becomes_at(table, *input)))
}

/// Whether a gate on these inputs may become this, among the parts of the reduced net.
pub(crate) fn gate_becomes(table: &[Becomes], inputs: &[NetId], net: &Net, becomes: Becomes) -> bool
    ensures { IsTrue result → GateBecomes table.now net.now inputs.now becomes }
{
    match becomes {
        Becomes::Net(gate) => {
            is_on_images(table, inputs, net, gate) || is_on_inverse(table, inputs, net, gate)
        }
        Becomes::Low => all_stay(table, inputs) && has_high(table, inputs),
        Becomes::High => are_low(table, inputs),
        Becomes::LeftOut => true,
    }
}

// Whether a net is a latch of this phase with these data.
fn is_latch(net: &Net, latch: NetId, phase: Phase, from: NetId) -> bool
    ensures { IsTrue result → slice_get net.now latch.0 ≡ Some (Latch phase (Some from)) }
{
    if latch.0 < net.len() {
        match net.kind(latch) {
            NetKind::Latch {
                phase: other,
                source: Some(source),
            } => other == phase && source.0 == from.0,
            _ => false,
        }
    } else {
        false
    }
}

/// Whether a latch of this phase with these data may become this.
pub(crate) fn latch_becomes(
    table: &[Becomes],
    phase: Phase,
    from: NetId,
    net: &Net,
    becomes: Becomes,
) -> bool
    ensures { IsTrue result → LatchBecomes table.now net.now phase from becomes }
{
    match becomes {
        Becomes::Net(latch) => match becomes_at(table, from) {
            Becomes::Net(source) => is_latch(net, latch, phase, source),
            _ => false,
        },
        Becomes::LeftOut => true,
        _ => false,
    }
}
