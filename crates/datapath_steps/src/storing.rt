//! The next values of stored words.

ghost use Rattle.std.specs.Prelude.{◌≡◌, ◌+◌, ◌*◌, ◌<◌, ◌∷◌, List, Some, None, IfOk, OnOk, All, length, slice_get};
ghost use Rattle.control_nor.specs.Lowering.{Stands};
ghost use Rattle.nor_net.specs.Shape.{gate_inputs, net_limit};
ghost use Rattle.nor_net.specs.declared.net.NetId as net_id;
ghost use Rattle.nor_net.specs.declared.net.Phase.TheVariants.{B};
ghost use Rattle.nor_net.specs.declared.net.Part.TheVariants.{Gate, Latch};
ghost use Rattle.path_values.specs.Allocated.{transfers_to};
ghost use Rattle.datapath_steps.specs.Continuing.{IsClearFound, IsLatchMade, IsMasterMade, IsSlaveFed, IsSourceMade};
ghost use Rattle.datapath_making.specs.Marking.{last_mark};
ghost use Rattle.datapath_making.specs.Sizes.{HasRoom, cast_cost};
ghost use Rattle.datapath_making.specs.Steps.{IsNextMade, IsStep, IsTransferReached, IsWaiting};
ghost use Rattle.datapath_making.specs.WellMade.{IsWellMade};

use crate::parts::add_latch;
use crate::transfers::{Terms, add_cast, add_gate, add_terms, select_transfers};
use datapath_making::{Making, net_of};
use mp_base::{List, NoMemory};
use nor_net::{NetId, Phase};
use rtl_form::Rtl;
use std::alloc::Global;

// The list with one in front.
fn with_first(first: NetId, list: List<NetId>) -> Result<List<NetId>, NoMemory>
    ensures { IfOk result (λ longer. longer ≡ first ∷ list) }
{
    let mut items = list.into_vec();
    if items.insert(0, first).is_err() {
        return Err(NoMemory);
    }
    Ok(List::from_vec(items))
}

// The net of reset.
fn reset_of(reset: Option<NetId>) -> NetId
    requires { (id : net_id.NetId) × (reset ≡ Some id) }
    ensures { reset ≡ Some result }
{
    match reset {
        Some(net) => net,
        None => NetId(0),
    }
}

// Reset in the slices, which is cast where it was not.
fn add_clear(making: &mut Making) -> Result<NetId, NoMemory>
    requires made { IsWellMade making.old }
    requires room { length making.old.slices.net + 1 < net_limit }
    requires reset { (id : net_id.NetId) × (making.old.reset ≡ Some id) × (id.0 < (last_mark making.old).control) }
    ensures { IfOk result (IsClearFound making.old making.new) }
{
    match making.clear {
        Some(net) => Ok(net),
        None => {
            let control = reset_of(making.reset);
            let net = add_cast(making, control)?;
            making.clear = Some(net);
            Ok(net)
        }
    }
}

// The next value of the word of a slave.
fn add_source(
    alloc: Global,
    making: &mut Making,
    terms: Terms,
    slave: NetId,
    clear: NetId,
) -> Result<NetId, NoMemory>
    requires made { IsWellMade making.old }
    requires room { length making.old.slices.net + 3 < net_limit }
    requires inputs_room { gate_inputs making.old.slices.net + length terms.guards + length terms.nets + 4 < net_limit }
    requires nets { All (λ j. j.0 < length making.old.slices.net) terms.nets }
    requires guards { All (λ j. j.0 < length making.old.slices.net) terms.guards }
    requires slave { slave.0 < length making.old.slices.net }
    requires clear { clear.0 < length making.old.slices.net }
    ensures { IfOk result (IsSourceMade terms slave clear making.old making.new) }
{
    let Terms { nets, guards } = terms;
    let guards = with_first(slave, guards)?;
    let hold = add_gate(alloc, making, guards.as_slice())?;
    let mut nets = nets;
    nets.push(hold)?;
    let off = add_gate(alloc, making, nets.as_slice())?;
    let source = add_gate(alloc, making, &[off, clear])?;
    Ok(source)
}

// A latch on a gate.
fn add_master(making: &mut Making, source: NetId) -> Result<NetId, NoMemory>
    requires made { IsWellMade making.old }
    requires room { length making.old.slices.net + 1 < net_limit }
    requires source { (inputs : List net_id.NetId) × (slice_get making.old.slices.net source.0 ≡ Some (Gate inputs)) }
    ensures { IfOk result (IsLatchMade source making.old making.new) }
{
    let id = add_latch(&mut making.slices.net, Phase::A, source)?;
    Ok(id)
}

// Gives a slave its data.
fn feed_slave(making: &mut Making, slave: NetId, source: NetId)
    requires made { IsWellMade making.old }
    requires slave { slice_get making.old.slices.net slave.0 ≡ Some (Latch B None) }
    requires source { (inputs : List net_id.NetId) × (slice_get making.old.slices.net source.0 ≡ Some (Gate inputs)) }
    ensures { IsSlaveFed slave source making.old making.new }
{
    making.slices.net.feed(slave, source);
}

// A master on the next value, and its negation, which feeds the slave.
fn add_masters(
    alloc: Global,
    making: &mut Making,
    slave: NetId,
    source: NetId,
) -> Result<(), NoMemory>
    requires made { IsWellMade making.old }
    requires room { length making.old.slices.net + 2 < net_limit }
    requires inputs_room { gate_inputs making.old.slices.net + 1 < net_limit }
    requires slave { slice_get making.old.slices.net slave.0 ≡ Some (Latch B None) }
    requires source { (inputs : List net_id.NetId) × (slice_get making.old.slices.net source.0 ≡ Some (Gate inputs)) }
    ensures { OnOk result (IsMasterMade slave source making.old making.new) }
{
    let master = add_master(making, source)?;
    let negation = add_gate(alloc, making, &[master])?;
    feed_slave(making, slave, negation);
    Ok(())
}

/// The next value of a stored cell, which is 0 under reset, and the data of its latches.
///
/// # Errors
///
/// `NoMemory`: then some of the nets may have been added.
pub fn add_next(
    alloc: Global,
    rtl: &Rtl,
    making: &mut Making,
    cell: u32,
    reset: u32,
) -> Result<(), NoMemory>
    requires made { IsWellMade making.old }
    requires room { HasRoom (6 + 4 * length (transfers_to rtl.now cell)) making.old }
    requires word { (id : net_id.NetId) × Stands making.old.cell_words cell id × IsWaiting making.old.slices.net id }
    requires transfers { All (IsTransferReached making.old) (transfers_to rtl.now cell) }
    requires reset { (id : net_id.NetId) × (making.old.reset ≡ Some id) × Stands making.old.names.cells reset id
        × (id.0 < (last_mark making.old).control) }
    ensures step { OnOk result
        (IsStep (5 + 4 * length (transfers_to rtl.now cell) + cast_cost making.old.clear)
        (length (transfers_to rtl.now cell) + cast_cost making.old.clear) making.old making.new) }
    ensures next { OnOk result (IsNextMade rtl.now cell reset making.old making.new) }
{
    let transfers = select_transfers(alloc, rtl, cell)?;
    let terms = add_terms(alloc, making, transfers.as_slice())?;
    let clear = add_clear(making)?;
    let word = net_of(making.cell_words.as_slice(), cell);
    let slave = NetId(word.0 - 1);
    let source = add_source(alloc, making, terms, slave, clear)?;
    add_masters(alloc, making, slave, source)?;
    Ok(())
}
