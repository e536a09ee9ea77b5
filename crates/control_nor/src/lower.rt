//! Gates for every bit.

ghost use Rattle.std.specs.Prelude.{◌≡◌, ◌+◌, ◌*◌, ◌<◌, ◌≤◌, ◌^◌, ℕ, Some, IfOk, OnOk, map, length, slice_get};
ghost use Rattle.nor_net.specs.Shape.{gate_inputs, net_limit};
ghost use Rattle.rtl_form.specs.Cost.{cost};
ghost use Rattle.rtl_form.specs.Sound.{IsSound};
ghost use Rattle.bit_gates.specs.Adding.{HasRoom};
ghost use Rattle.control_nor.specs.Lowering.{IsLowered};
ghost use Rattle.control_nor.specs.NextValues.{AreNextValues, AreWaiting, next_left};
ghost use Rattle.bit_gates.specs.Rails.{AllBelow, IsNamed, net_of as the_net_of};
ghost use Rattle.mp_base.specs.declared.limits.TheConstants.{WEIGHT_LIMIT};

use crate::first::{First, lower_all_first, no_bits};
use crate::names::{Bits, Names};
use crate::storing::lower_all_next;
use crate::tasks::lower_tasks;
use bit_gates::{Rails, named};
use mp_base::{List, NoMemory};
use nor_net::{Net, NetId};
use rtl_form::Rtl;
use std::alloc::Global;
use task_schedule::schedule;

// The next values of all stored bits, of which there are none where nothing resets.
fn lower_next_values(alloc: Global, rtl: &Rtl, net: &mut Net, bits: &Bits) -> Result<(), NoMemory>
    requires sound { IsSound rtl.now }
    requires few { length rtl.now.cells < 2 ^ 32 }
    requires waiting { AreWaiting rtl.now net.old bits.now }
    requires below { AllBelow (length net.old) bits.now.cells }
    requires reset { (c : ℕ) → rtl.now.reset ≡ Some c → IsNamed bits.now.cells c }
    requires room { HasRoom (next_left rtl.now 0) net.old }
    ensures { OnOk result (AreNextValues rtl.now bits.now net.old net.new) }
{
    match rtl.reset {
        Some(index) => {
            let reset = named(bits.cells.as_slice(), index).bit;
            lower_all_next(alloc, rtl, net, bits, reset)
        }
        None => Ok(()),
    }
}

// The net of a bit.
fn net_of(entry: Option<Rails>) -> Option<NetId>
    ensures { result ≡ the_net_of entry }
{
    match entry {
        Some(rails) => Some(rails.bit),
        None => None,
    }
}

// The nets of bits.
fn nets_of(alloc: Global, bits: &[Option<Rails>]) -> Result<List<Option<NetId>>, NoMemory>
    ensures { IfOk result (λ nets. nets ≡ map the_net_of bits.now) }
{
    let mut nets = List::new(alloc);
    for entry in bits {
        nets.push(net_of(*entry))?;
    }
    Ok(nets)
}

/// Adds the gates of every bit cell and guard, and the latches of every stored bit and input bit.
///
/// A bit is a pair of nets, one the NOR of the other. A NOR of bits or of negations makes each operator. The driven
/// bits are the OR of their transfers' terms. A stored bit is two latches in phases A and B, whose data are 0 under
/// reset. Where a word enters, as for `=`, there is an input.
///
/// # Errors
///
/// `NoMemory`: then some of the nets may have been added.
pub fn lower_bits(alloc: Global, rtl: &Rtl, net: &mut Net) -> Result<Names, NoMemory>
    requires sound { IsSound rtl.now }
    requires small { cost rtl.now ≤ WEIGHT_LIMIT }
    requires room { length net.old + 2 * cost rtl.now < net_limit }
    requires inputs_room { gate_inputs net.old + 4 * cost rtl.now < net_limit }
    ensures { IfOk result (λ names. IsLowered rtl.now net.old net.new names) }
{
    let tasks = schedule(alloc, rtl)?;
    let First { cells, pads } = lower_all_first(alloc, rtl, net)?;
    let start = net.len();
    let exprs = no_bits(alloc, rtl.exprs.len())?;
    let mut bits = Bits { cells, exprs };
    let ends = lower_tasks(alloc, rtl, net, tasks.as_slice(), &mut bits)?;
    lower_next_values(alloc, rtl, net, &bits)?;
    let cells = nets_of(alloc, bits.cells.as_slice())?;
    let exprs = nets_of(alloc, bits.exprs.as_slice())?;
    Ok(Names {
        cells,
        exprs,
        inputs: pads,
        tasks,
        start,
        ends,
    })
}
