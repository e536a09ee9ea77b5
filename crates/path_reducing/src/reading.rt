//! Whether the nets of input pads are read.

ghost use Rattle.std.specs.Prelude.{◌≡◌, ◌<◌, ◌==◌, true, false, All, IfOk, IfSome, IsTrue, length, slice_get};
ghost use Rattle.std.specs.List.{list_any};
ghost use Rattle.nor_net.specs.declared.net.NetId as net_id;
ghost use Rattle.organelles.specs.declared.slices.Chain as chain_type;
ghost use Rattle.path_form.specs.declared.path.Cast as cast_type;
ghost use Rattle.path_form.specs.declared.path.Lift as lift_type;
ghost use Rattle.path_form.specs.Shape.{chain_from};
ghost use Rattle.path_form.specs.Sizes.{is_read, reads};
ghost use Rattle.path_reducing.specs.Reduced.{IsUsed, control_reads, slice_reads};

use mp_base::NoMemory;
use nor_net::{Net, NetId, NetKind};
use organelles::Chain;
use path_draft::entries_of;
use path_form::{Cast, DataPath, Lift};
use std::alloc::Global;

// Whether these nets include one.
fn includes(nets: &[NetId], net: NetId) -> bool
    ensures { result ≡ list_any (λ (other : net_id.NetId). other.0 == net.0) nets.now }
{
    nets.iter().any(|other| other.0 == net.0)
}

// Whether a part reads a net.
fn reads(net: &Net, part: NetId, id: NetId) -> bool
    requires { part.0 < length net.now }
    ensures { IfSome (slice_get net.now part.0) (λ part. result ≡ reads id.0 part) }
{
    match net.kind(part) {
        NetKind::Gate => includes(net.gate_inputs(part), id),
        NetKind::Latch {
            source: Some(source),
            ..
        } => source.0 == id.0,
        _ => false,
    }
}

// Whether some part reads a net.
fn is_read(net: &Net, id: NetId) -> bool
    ensures { IsTrue result → is_read net.now id.0 ≡ true }
{
    for part in 0..net.len() {
        if reads(net, NetId(part), id) {
            return true;
        }
    }
    false
}

fn is_lifted(lifts: &[Lift], id: NetId) -> bool
    ensures { result ≡ list_any (λ (l : lift_type.Lift). l.from.0 == id.0) lifts.now }
{
    lifts.iter().any(|lift| lift.from.0 == id.0)
}

fn is_lift(lifts: &[Lift], id: NetId) -> bool
    ensures { result ≡ list_any (λ (l : lift_type.Lift). l.control.0 == id.0) lifts.now }
{
    lifts.iter().any(|lift| lift.control.0 == id.0)
}

fn is_cast(casts: &[Cast], id: NetId) -> bool
    ensures { result ≡ list_any (λ (c : cast_type.Cast). c.control.0 == id.0) casts.now }
{
    casts.iter().any(|cast| cast.control.0 == id.0)
}

// Where a chain comes from.
fn chain_from(chain: Chain) -> NetId
    ensures { result ≡ chain_from chain }
{
    match chain {
        Chain::Up { from, .. } => from,
        Chain::Down { from, .. } => from,
    }
}

fn is_carried(chains: &[Chain], id: NetId) -> bool
    ensures { result ≡ list_any (λ (c : chain_type.Chain). (chain_from c).0 == id.0) chains.now }
{
    chains.iter().any(|chain| chain_from(*chain).0 == id.0)
}

// Whether something takes the value of a net of the control.
fn control_reads(path: &DataPath, id: NetId) -> bool
    ensures { IsTrue result → control_reads path.now id ≡ true }
{
    is_read(&path.control, id)
        || is_lift(path.lifts.as_slice(), id)
        || is_cast(path.casts.as_slice(), id)
}

// Whether something takes the value of a net of a slice.
fn slice_reads(path: &DataPath, id: NetId) -> bool
    ensures { IsTrue result → slice_reads path.now id ≡ true }
{
    is_read(&path.slices.net, id)
        || is_lifted(path.lifts.as_slice(), id)
        || is_carried(path.slices.chains.as_slice(), id)
}

// Whether something takes those of all these nets of the control.
fn control_reads_all(path: &DataPath, ids: &[NetId]) -> bool
    ensures { IsTrue result → All (λ id. control_reads path.now id ≡ true) ids.now }
{
    for id in ids {
        if !control_reads(path, *id) {
            return false;
        }
    }
    true
}

// Whether something takes those of all these nets of a slice.
fn slice_reads_all(path: &DataPath, ids: &[NetId]) -> bool
    ensures { IsTrue result → All (λ id. slice_reads path.now id ≡ true) ids.now }
{
    for id in ids {
        if !slice_reads(path, *id) {
            return false;
        }
    }
    true
}

/// Whether the net of each input pad is read.
///
/// # Errors
///
/// `NoMemory`.
pub(crate) fn is_used(alloc: Global, path: &DataPath) -> Result<bool, NoMemory>
    ensures { IfOk result (λ is. IsTrue is → IsUsed path.now) }
{
    let pads = path.pads.inputs.as_slice();
    let signals = entries_of(alloc, false, pads, path.inputs.as_slice())?;
    let words = entries_of(alloc, true, pads, path.inputs.as_slice())?;
    let control = control_reads_all(path, signals.as_slice());
    Ok(control && slice_reads_all(path, words.as_slice()))
}
