//! The next values of stored words.

ghost use Rattle.std.specs.Prelude.{◌≡◌, ◌<◌, ◌^◌, suc, Some, OnOk, length};
ghost use Rattle.control_nor.specs.Lowering.{nets_before};
ghost use Rattle.datapath_making.specs.Marking.{last_mark};
ghost use Rattle.datapath_alloc.specs.Progress.{IsMadeTo, KeepsMarks};
ghost use Rattle.datapath_alloc.specs.Noting.{KeepsWords};
ghost use Rattle.datapath_alloc.specs.Spending.{is_stored_word};

use datapath_making::Making;
use datapath_steps::add_next;
use mp_base::NoMemory;
use rtl_form::{Cell, CellKind, Rtl};
use std::alloc::Global;

// Whether a cell is a word that is stored.
fn is_stored(cell: Cell) -> bool
    ensures { result ≡ is_stored_word cell }
{
    match cell.kind {
        CellKind::Stored => cell.word,
        _ => false,
    }
}

// The next value of a cell, if it is a word that is stored.
fn add_next_of(
    alloc: Global,
    rtl: &Rtl,
    making: &mut Making,
    index: u32,
    reset: u32,
) -> Result<(), NoMemory>
    requires cell { index < length rtl.now.cells }
    requires reset { rtl.now.reset ≡ Some reset }
    requires marks { (last_mark making.old).control ≡ nets_before making.old.names (length making.old.names.tasks) }
    requires made { IsMadeTo rtl.now (length rtl.now.cells) (length making.old.names.tasks) index making.old }
    ensures made { OnOk result
        (IsMadeTo rtl.now (length rtl.now.cells) (length making.old.names.tasks) (suc index) making.new) }
    ensures marks { OnOk result (KeepsMarks making.old making.new) }
    ensures words { OnOk result (KeepsWords making.old making.new) }
{
    let cell = *rtl.cells.at(index);
    if is_stored(cell) {
        add_next(alloc, rtl, making, index, reset)
    } else {
        Ok(())
    }
}

// The same for all cells, where this cell resets them.
fn add_all_next(alloc: Global, rtl: &Rtl, making: &mut Making, reset: u32) -> Result<(), NoMemory>
    requires few { length rtl.now.cells < 2 ^ 32 }
    requires reset { rtl.now.reset ≡ Some reset }
    requires marks { (last_mark making.old).control ≡ nets_before making.old.names (length making.old.names.tasks) }
    requires made { IsMadeTo rtl.now (length rtl.now.cells) (length making.old.names.tasks) 0 making.old }
    ensures made { OnOk result (IsMadeTo rtl.now (length rtl.now.cells) (length making.new.names.tasks)
        (length rtl.now.cells) making.new) }
    ensures words { OnOk result (KeepsWords making.old making.new) }
{
    for index in 0..rtl.cells.len() as u32 {
        add_next_of(alloc, rtl, making, index, reset)?;
    }
    Ok(())
}

/// The next values of all words that are stored, of which there are none where nothing resets.
pub fn add_next_values(alloc: Global, rtl: &Rtl, making: &mut Making) -> Result<(), NoMemory>
    requires few { length rtl.now.cells < 2 ^ 32 }
    requires marks { (last_mark making.old).control ≡ nets_before making.old.names (length making.old.names.tasks) }
    requires made { IsMadeTo rtl.now (length rtl.now.cells) (length making.old.names.tasks) 0 making.old }
    ensures made { OnOk result (IsMadeTo rtl.now (length rtl.now.cells) (length making.new.names.tasks)
        (length rtl.now.cells) making.new) }
    ensures words { OnOk result (KeepsWords making.old making.new) }
{
    match rtl.reset {
        Some(reset) => add_all_next(alloc, rtl, making, reset),
        None => Ok(()),
    }
}
