//! Words that transfers write.

ghost use Rattle.std.specs.Prelude.{◌≡◌, ◌+◌, ◌*◌, ◌<◌, IfOk, OnOk, All, length};
ghost use Rattle.nor_net.specs.Shape.{gate_inputs, net_limit};
ghost use Rattle.path_values.specs.Allocated.{transfers_to};
ghost use Rattle.datapath_steps.specs.Continuing.{AreTerms, IsCastMade, IsGateMade, IsGuardFound, IsTermMade};
ghost use Rattle.datapath_making.specs.Marking.{last_mark};
ghost use Rattle.datapath_making.specs.Sizes.{HasRoom};
ghost use Rattle.datapath_making.specs.Steps.{IsBitReached, IsDrivenMade, IsFree, IsStep, IsTransferReached};
ghost use Rattle.datapath_making.specs.WellMade.{IsWellMade};

use datapath_making::{Guard, Making, net_of};
use mp_base::{List, NoMemory};
use nor_net::NetId;
use path_form::Cast;
use rtl_form::{Rtl, Transfer};
use std::alloc::Global;

// The transfers to a cell.
pub(crate) fn select_transfers(
    alloc: Global,
    rtl: &Rtl,
    cell: u32,
) -> Result<List<Transfer>, NoMemory>
    ensures { IfOk result (λ ts. ts ≡ transfers_to rtl.now cell) }
{
    let mut selected = List::new(alloc);
    for transfer in rtl.transfers.as_slice() {
        if transfer.target == cell {
            selected.push(*transfer)?;
        }
    }
    Ok(selected)
}

/// The term of a transfer, and the cast of its guard.
#[derive(Clone, Copy, PartialEq, Eq, Debug)]
pub struct Term {
    pub net: NetId,
    pub guard: NetId,
}

/// The same of many transfers, in order.
#[derive(Drop)]
pub struct Terms {
    pub nets: List<NetId>,
    pub guards: List<NetId>,
}

// A gate of the slices.
pub(crate) fn add_gate(
    alloc: Global,
    making: &mut Making,
    inputs: &[NetId],
) -> Result<NetId, NoMemory>
    requires made { IsWellMade making.old }
    requires room { length making.old.slices.net + 1 < net_limit }
    requires inputs_room { gate_inputs making.old.slices.net + length inputs.now < net_limit }
    requires inputs { All (λ j. j.0 < length making.old.slices.net) inputs.now }
    ensures { IfOk result (IsGateMade inputs.now making.old making.new) }
{
    let id = making.slices.net.gate(alloc, inputs)?;
    Ok(id)
}

// A net of the control, in each slice.
pub(crate) fn add_cast(making: &mut Making, control: NetId) -> Result<NetId, NoMemory>
    requires made { IsWellMade making.old }
    requires room { length making.old.slices.net + 1 < net_limit }
    requires reached { control.0 < (last_mark making.old).control }
    ensures { IfOk result (IsCastMade control making.old making.new) }
{
    let slice = making.slices.net.input()?;
    making.casts.push(Cast { control, slice })?;
    Ok(slice)
}

// A guard in the slices, which is cast where it was not.
fn add_guard(alloc: Global, making: &mut Making, expr: u32) -> Result<Guard, NoMemory>
    requires made { IsWellMade making.old }
    requires room { length making.old.slices.net + 2 < net_limit }
    requires inputs_room { gate_inputs making.old.slices.net + 1 < net_limit }
    requires reached { IsBitReached making.old making.old.names.exprs expr }
    ensures { IfOk result (IsGuardFound expr making.old making.new) }
{
    if let Some(guard) = *making.guards.at(expr) {
        return Ok(guard);
    }
    let control = net_of(making.names.exprs.as_slice(), expr);
    let cast = add_cast(making, control)?;
    let off = add_gate(alloc, making, &[cast])?;
    let guard = Guard { cast, off };
    making.guards.set(expr, Some(guard));
    Ok(guard)
}

// The term of a transfer.
fn add_term(alloc: Global, making: &mut Making, transfer: Transfer) -> Result<Term, NoMemory>
    requires made { IsWellMade making.old }
    requires room { length making.old.slices.net + 4 < net_limit }
    requires inputs_room { gate_inputs making.old.slices.net + 4 < net_limit }
    requires reached { IsTransferReached making.old transfer }
    ensures { IfOk result (IsTermMade transfer making.old making.new) }
{
    let guard = add_guard(alloc, making, transfer.guard)?;
    let value = net_of(making.words.as_slice(), transfer.value);
    let off_value = add_gate(alloc, making, &[value])?;
    let net = add_gate(alloc, making, &[off_value, guard.off])?;
    Ok(Term {
        net,
        guard: guard.cast,
    })
}

// The terms of transfers.
pub(crate) fn add_terms(
    alloc: Global,
    making: &mut Making,
    transfers: &[Transfer],
) -> Result<Terms, NoMemory>
    requires made { IsWellMade making.old }
    requires room { length making.old.slices.net + 4 * length transfers.now < net_limit }
    requires inputs_room { gate_inputs making.old.slices.net + 4 * length transfers.now < net_limit }
    requires reached { All (IsTransferReached making.old) transfers.now }
    ensures { IfOk result (AreTerms transfers.now making.old making.new) }
{
    let mut nets = List::new(alloc);
    let mut guards = List::new(alloc);
    for transfer in transfers {
        let term = add_term(alloc, making, *transfer)?;
        nets.push(term.net)?;
        guards.push(term.guard)?;
    }
    Ok(Terms { nets, guards })
}

/// The word of a driven cell: the OR of the terms of its transfers.
///
/// # Errors
///
/// `NoMemory`: then some of the nets may have been added.
pub fn add_driven(alloc: Global, rtl: &Rtl, making: &mut Making, cell: u32) -> Result<(), NoMemory>
    requires made { IsWellMade making.old }
    requires room { HasRoom (2 + 4 * length (transfers_to rtl.now cell)) making.old }
    requires free { IsFree making.old.cell_words cell }
    requires transfers { All (IsTransferReached making.old) (transfers_to rtl.now cell) }
    ensures step { OnOk result (IsStep (2 + 4 * length (transfers_to rtl.now cell))
        (length (transfers_to rtl.now cell)) making.old making.new) }
    ensures driven { OnOk result (IsDrivenMade rtl.now cell making.old making.new) }
{
    let transfers = select_transfers(alloc, rtl, cell)?;
    let terms = add_terms(alloc, making, transfers.as_slice())?;
    let off = add_gate(alloc, making, terms.nets.as_slice())?;
    let word = add_gate(alloc, making, &[off])?;
    making.cell_words.set(cell, Some(word));
    Ok(())
}
