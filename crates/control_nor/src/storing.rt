//! The next values of all stored bits.

ghost use Rattle.std.specs.Prelude.{◌≡◌, ℕ, ◌<◌, ◌≤◌, ◌+◌, ◌^◌, Some, None, true, All, IfOk, OnOk, length, slice_get};
ghost use Rattle.nor_net.specs.declared.net.Phase.TheVariants.{B};
ghost use Rattle.nor_net.specs.declared.net.Part.TheVariants.{Latch};
ghost use Rattle.rtl_form.specs.Sound.{IsSound};
ghost use Rattle.bit_gates.specs.Adding.{HasRoom};
ghost use Rattle.bit_gates.specs.Cells.{IsTransferNamed, transfers_to};
ghost use Rattle.control_nor.specs.NextValues.{AreStored, AreWaiting, IsNextCellMade, is_stored_bit, next_left};
ghost use Rattle.bit_gates.specs.Rails.{AllBelow, IsNamed, Named};
ghost use Rattle.bit_gates.specs.declared.rails.Rails as the_rails;

use crate::names::Bits;
use bit_gates::{lower_next, named, select_transfers};
use mp_base::NoMemory;
use nor_net::{Net, NetId};
use rtl_form::{Cell, CellKind, Rtl};
use std::alloc::Global;

// Whether a cell is a bit that is stored.
fn is_stored(cell: Cell) -> bool
    ensures { result ≡ is_stored_bit cell }
{
    match cell.kind {
        CellKind::Stored => !cell.word,
        _ => false,
    }
}

// The next value of one cell; nothing where it is no stored bit.
fn lower_next_of(
    alloc: Global,
    rtl: &Rtl,
    net: &mut Net,
    bits: &Bits,
    index: u32,
    cell: Cell,
    reset: NetId,
) -> Result<(), NoMemory>
    requires has { is_stored_bit cell ≡ true → IsNamed bits.now.cells index }
    requires slave { (rails : the_rails.Rails) → is_stored_bit cell ≡ true → Named bits.now.cells index rails
        → slice_get net.old rails.negation.0 ≡ Some (Latch B None) }
    requires named { is_stored_bit cell ≡ true
        → All (IsTransferNamed bits.now.exprs) (transfers_to rtl.now.transfers index) }
    requires below { AllBelow (length net.old) bits.now.exprs }
    requires reset { reset.0 < length net.old }
    requires room { is_stored_bit cell ≡ true → HasRoom (5 + length (transfers_to rtl.now.transfers index)) net.old }
    ensures { OnOk result (IsNextCellMade rtl.now bits.now reset index cell net.old net.new) }
{
    if is_stored(cell) {
        let transfers = select_transfers(alloc, rtl.transfers.as_slice(), index)?;
        let slave = named(bits.cells.as_slice(), index).negation;
        lower_next(
            alloc,
            net,
            bits.exprs.as_slice(),
            transfers.as_slice(),
            slave,
            reset,
        )?;
    }
    Ok(())
}

/// The next values of all stored bits.
pub fn lower_all_next(
    alloc: Global,
    rtl: &Rtl,
    net: &mut Net,
    bits: &Bits,
    reset: NetId,
) -> Result<(), NoMemory>
    requires few { length rtl.now.cells < 2 ^ 32 }
    requires waiting { AreWaiting rtl.now net.old bits.now }
    requires reset { reset.0 < length net.old }
    requires room { HasRoom (next_left rtl.now 0) net.old }
    ensures { OnOk result (AreStored rtl.now bits.now (length rtl.now.cells) reset net.old net.new) }
{
    for index in 0..rtl.cells.len() as u32 {
        let cell = *rtl.cells.at(index);
        lower_next_of(alloc, rtl, net, bits, index, cell, reset)?;
    }
    Ok(())
}
