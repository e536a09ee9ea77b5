//! Gates and latches of cells.

ghost use Rattle.std.specs.Prelude.{◌≡◌, ℕ, ◌<◌, ◌+◌, ◌*◌, ◌++◌, ◌∷◌, [], Some, None, All, IfOk, OnOk, length};
ghost use Rattle.std.specs.Prelude.{slice_get};
ghost use Rattle.std.specs.List.{AllZip};
ghost use Rattle.nor_net.specs.Shape.{gate_inputs, net_limit, IsAdded};
ghost use Rattle.nor_net.specs.declared.net.Phase.TheVariants.{B};
ghost use Rattle.nor_net.specs.declared.net.Part.TheVariants.{Gate, Latch};
ghost use Rattle.rtl_form.specs.declared.rtl.CellKind.TheVariants.{Input};
ghost use Rattle.bit_gates.specs.Adding.{HasRoom};
ghost use Rattle.bit_gates.specs.Cells.{AreTerms, GuardOf, IsDrivenMade, IsFirstMade, IsNextMade, IsSourceMade};
ghost use Rattle.bit_gates.specs.Cells.{IsTransferNamed, first_cost, transfers_to};
ghost use Rattle.bit_gates.specs.Rails.{AllBelow, AreBelow};

use crate::gates::{add_latch, add_pair, add_port, add_slave};
use crate::rails::{Rails, named};
use mp_base::{List, NoMemory};
use nor_net::{Net, NetId, Phase};
use rtl_form::{Cell, CellKind, Transfer};
use std::alloc::Global;

/// The transfers to a cell.
pub fn select_transfers(
    alloc: Global,
    transfers: &[Transfer],
    target: u32,
) -> Result<List<Transfer>, NoMemory>
    ensures { IfOk result (λ ts. ts ≡ transfers_to transfers.now target) }
{
    let mut selected = List::new(alloc);
    for transfer in transfers {
        if transfer.target == target {
            selected.push(*transfer)?;
        }
    }
    Ok(selected)
}

// The term of a transfer with this guard and value.
fn add_term(alloc: Global, net: &mut Net, guard: Rails, value: Rails) -> Result<NetId, NoMemory>
    requires room { length net.old + 1 < net_limit }
    requires inputs_room { gate_inputs net.old + 2 < net_limit }
    requires guard { AreBelow (length net.old) guard }
    requires value { AreBelow (length net.old) value }
    ensures { IfOk result (IsAdded net.old (Gate (value.negation ∷ guard.negation ∷ [])) net.new) }
{
    net.gate(alloc, &[value.negation, guard.negation])
}

// The terms of transfers.
fn add_terms(
    alloc: Global,
    net: &mut Net,
    exprs: &[Option<Rails>],
    transfers: &[Transfer],
) -> Result<List<NetId>, NoMemory>
    requires named { All (IsTransferNamed exprs.now) transfers.now }
    requires below { AllBelow (length net.old) exprs.now }
    requires room { length net.old + length transfers.now < net_limit }
    requires inputs_room { gate_inputs net.old + 2 * length transfers.now < net_limit }
    ensures { IfOk result (AreTerms exprs.now transfers.now net.old net.new) }
{
    let mut terms = List::new(alloc);
    for transfer in transfers {
        let guard = named(exprs, transfer.guard);
        let value = named(exprs, transfer.value);
        let term = add_term(alloc, net, guard, value)?;
        terms.push(term)?;
    }
    Ok(terms)
}

// The nets of the guards of transfers.
fn guards_of(
    alloc: Global,
    exprs: &[Option<Rails>],
    transfers: &[Transfer],
) -> Result<List<NetId>, NoMemory>
    requires { All (IsTransferNamed exprs.now) transfers.now }
    ensures { IfOk result (AllZip (GuardOf exprs.now) transfers.now) }
{
    let mut guards = List::new(alloc);
    for transfer in transfers {
        guards.push(named(exprs, transfer.guard).bit)?;
    }
    Ok(guards)
}

/// A bit that transfers drive: the OR of their terms.
pub fn lower_driven(
    alloc: Global,
    net: &mut Net,
    exprs: &[Option<Rails>],
    transfers: &[Transfer],
) -> Result<Rails, NoMemory>
    requires named { All (IsTransferNamed exprs.now) transfers.now }
    requires below { AllBelow (length net.old) exprs.now }
    requires room { HasRoom (2 + length transfers.now) net.old }
    ensures { IfOk result (IsDrivenMade exprs.now transfers.now net.old net.new) }
{
    let terms = add_terms(alloc, net, exprs, transfers)?;
    let rails = add_pair(alloc, net, terms.as_slice())?;
    Ok(rails.swapped())
}

/// The first nets of a cell: the latch of an input, or the slave of a stored bit; nothing for words and driven bits.
pub fn lower_first(
    alloc: Global,
    net: &mut Net,
    cell: Cell,
    pads: &mut List<Option<NetId>>,
) -> Result<Option<Rails>, NoMemory>
    requires pad { (k : ℕ) → cell.kind ≡ Input k → k < length pads.old }
    requires room { HasRoom (first_cost cell) net.old }
    ensures { IfOk result (IsFirstMade cell net.old net.new pads.old pads.new) }
{
    if cell.word {
        return Ok(None);
    }
    match cell.kind {
        CellKind::Input(pad) => {
            let port = add_port(alloc, net)?;
            pads.set(pad, Some(port.pad));
            Ok(Some(port.rails))
        }
        CellKind::Stored => Ok(Some(add_slave(alloc, net)?)),
        _ => Ok(None),
    }
}

// A gate on these nets and one more.
fn add_gate_on(
    alloc: Global,
    net: &mut Net,
    inputs: List<NetId>,
    last: NetId,
) -> Result<NetId, NoMemory>
    requires room { length net.old + 1 < net_limit }
    requires inputs_room { gate_inputs net.old + length inputs + 1 < net_limit }
    requires inputs { All (λ j. j.0 < length net.old) inputs }
    requires last { last.0 < length net.old }
    ensures { IfOk result (IsAdded net.old (Gate (inputs ++ last ∷ [])) net.new) }
{
    let mut inputs = inputs;
    inputs.push(last)?;
    net.gate(alloc, inputs.as_slice())
}

// Gates for the next value of a stored bit, under reset too, up to the data of its master.
fn add_source(
    alloc: Global,
    net: &mut Net,
    exprs: &[Option<Rails>],
    transfers: &[Transfer],
    slave: NetId,
    reset: NetId,
) -> Result<NetId, NoMemory>
    requires named { All (IsTransferNamed exprs.now) transfers.now }
    requires below { AllBelow (length net.old) exprs.now }
    requires slave { slave.0 < length net.old }
    requires reset { reset.0 < length net.old }
    requires room { HasRoom (5 + length transfers.now) net.old }
    ensures { IfOk result (IsSourceMade exprs.now transfers.now slave reset net.old net.new) }
{
    let guards = guards_of(alloc, exprs, transfers)?;
    let terms = add_terms(alloc, net, exprs, transfers)?;
    let hold = add_gate_on(alloc, net, guards, slave)?;
    let off = add_gate_on(alloc, net, terms, hold)?;
    let source = net.gate(alloc, &[off, reset])?;
    Ok(source)
}

/// Gates for the next value of a stored bit, its master on them, and the data of its slave.
pub fn lower_next(
    alloc: Global,
    net: &mut Net,
    exprs: &[Option<Rails>],
    transfers: &[Transfer],
    slave: NetId,
    reset: NetId,
) -> Result<(), NoMemory>
    requires named { All (IsTransferNamed exprs.now) transfers.now }
    requires below { AllBelow (length net.old) exprs.now }
    requires slave { slice_get net.old slave.0 ≡ Some (Latch B None) }
    requires reset { reset.0 < length net.old }
    requires room { HasRoom (5 + length transfers.now) net.old }
    ensures { OnOk result (IsNextMade exprs.now transfers.now slave reset net.old net.new) }
{
    let source = add_source(alloc, net, exprs, transfers, slave, reset)?;
    let master = add_latch(net, Phase::A, source)?;
    let negation = net.gate(alloc, &[master])?;
    net.feed(slave, negation);
    Ok(())
}
