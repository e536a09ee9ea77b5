//! Nets that are told at most once.

ghost use Rattle.std.specs.Prelude.{◌≡◌, ◌<◌, ℕ, true, false, All, IfOk, IfSome, IsTrue, length, slice_get};
ghost use Rattle.path_form.specs.Shape.{AreInputs};
ghost use Rattle.path_draft.specs.Testing.{AreFlags, ArePads, LatchesFit, flag_at, is_input_at, takes_flagged, told_inputs};

use crate::ends::both;
use mp_base::{List, NoMemory};
use nor_net::{Net, NetId, NetKind};
use std::alloc::Global;

// The flag of a net, not set past the end.
fn flag_at(flags: &[bool], net: u32) -> bool
    ensures { result ≡ flag_at flags.now net }
{
    match flags.get(net as usize) {
        Some(flag) => *flag,
        None => false,
    }
}

// As many flags, none of which is set.
fn no_flags(alloc: Global, count: u32) -> Result<List<bool>, NoMemory>
    ensures size { IfOk result (λ flags. length flags ≡ count) }
    ensures none { IfOk result (λ flags. (n : ℕ) → flag_at flags n ≡ false) }
{
    Ok(List::from_vec(vec![in alloc; false; count as usize]?))
}

/// Flags for so many nets, set for these, if these are among them and no two are the same.
pub(crate) fn flags_of(
    alloc: Global,
    ids: &[NetId],
    count: u32,
) -> Result<Option<List<bool>>, NoMemory>
    ensures { IfOk result (λ flags. IfSome flags (AreFlags ids.now count)) }
{
    let mut flags = no_flags(alloc, count)?;
    for id in ids {
        if count <= id.0 || flag_at(flags.as_slice(), id.0) {
            return Ok(None);
        }
        flags.set(id.0, true);
    }
    Ok(Some(flags))
}

// Whether this net is an input.
fn is_input(net: &Net, id: u32) -> bool
    ensures { result ≡ is_input_at net.now id }
{
    id < net.len() && net.kind(NetId(id)) == NetKind::Input
}

// Whether all these nets are inputs.
fn are_all_inputs(net: &Net, ids: &[NetId]) -> bool
    ensures { result ≡ told_inputs net.now ids.now }
{
    ids.iter().all(|id| is_input(net, id.0))
}

// Whether each input has its flag.
fn are_inputs_told(net: &Net, flags: &[bool]) -> bool
    ensures { IsTrue result → (n : ℕ) → n < length net.now → is_input_at net.now n ≡ true → flag_at flags.now n ≡ true }
{
    for id in 0..net.len() {
        if is_input(net, id) && !flag_at(flags, id) {
            return false;
        }
    }
    true
}

// Whether each input of a net is among these, which have their flags, and they are inputs.
fn inputs_fit(net: &Net, ids: &[NetId], flags: &[bool]) -> bool
    requires { AreFlags ids.now (length net.now) flags.now }
    ensures { IsTrue result → AreInputs net.now ids.now }
{
    are_all_inputs(net, ids) && are_inputs_told(net, flags)
}

/// Whether each input of a net is exactly once among these, and they are inputs.
pub(crate) fn are_inputs(alloc: Global, net: &Net, ids: &[NetId]) -> Result<bool, NoMemory>
    ensures { IfOk result (λ are. IsTrue are → AreInputs net.now ids.now) }
{
    match flags_of(alloc, ids, net.len())? {
        Some(flags) => Ok(inputs_fit(net, ids, flags.as_slice())),
        None => Ok(false),
    }
}

// Whether a latch has as its data no input but one that is flagged.
fn takes(net: &Net, flags: &[bool], latch: u32) -> bool
    requires { latch < length net.now }
    ensures { IsTrue result → IfSome (slice_get net.now latch) (λ part. takes_flagged net.now flags.now part ≡ true) }
{
    match net.kind(NetId(latch)) {
        NetKind::Latch {
            source: Some(source),
            ..
        } => !is_input(net, source.0) || flag_at(flags, source.0),
        _ => true,
    }
}

// Whether all latches are so.
fn all_take(net: &Net, flags: &[bool]) -> bool
    ensures { IsTrue result → All (λ part. takes_flagged net.now flags.now part ≡ true) net.now }
{
    for latch in 0..net.len() {
        if !takes(net, flags, latch) {
            return false;
        }
    }
    true
}

// The same, where these nets have their flags.
fn latches_told(net: &Net, inputs: &[NetId], flags: &[bool]) -> bool
    requires { AreFlags inputs.now (length net.now) flags.now }
    ensures { IsTrue result → LatchesFit net.now inputs.now }
{
    all_take(net, flags)
}

// Whether all latches have as their data no input but these.
fn latches_fit(alloc: Global, net: &Net, inputs: &[NetId]) -> Result<bool, NoMemory>
    ensures { IfOk result (λ fit. IsTrue fit → LatchesFit net.now inputs.now) }
{
    match flags_of(alloc, inputs, net.len())? {
        Some(flags) => Ok(latches_told(net, inputs, flags.as_slice())),
        None => Ok(false),
    }
}

/// Whether these may be the nets of input and output pads: they are nets, no two are the same, and latches have no
/// input as their data but that of a pad.
pub(crate) fn are_pads(
    alloc: Global,
    net: &Net,
    inputs: &[NetId],
    outputs: &[NetId],
) -> Result<bool, NoMemory>
    ensures { IfOk result (λ are. IsTrue are → ArePads net.now inputs.now outputs.now) }
{
    let all = both(alloc, inputs, outputs)?;
    match flags_of(alloc, all.as_slice(), net.len())? {
        Some(flags) => {
            let _count = flags.len();
            let latches = latches_fit(alloc, net, inputs)?;
            Ok(latches)
        }
        None => Ok(false),
    }
}
