//! The words that are inputs or stored.

ghost use Rattle.std.specs.Prelude.{◌≡◌, ◌<◌, ◌^◌, suc, OnOk, length};
ghost use Rattle.datapath_alloc.specs.Progress.{IsMadeTo, KeepsMarks};

use datapath_making::Making;
use datapath_steps::{add_port, add_slave};
use mp_base::NoMemory;
use rtl_form::{CellKind, Rtl};
use std::alloc::Global;

// The latch of a cell, if it is a word that is an input or stored.
fn add_latch(alloc: Global, rtl: &Rtl, making: &mut Making, index: u32) -> Result<(), NoMemory>
    requires cell { index < length rtl.now.cells }
    requires made { IsMadeTo rtl.now index 0 0 making.old }
    ensures made { OnOk result (IsMadeTo rtl.now (suc index) 0 0 making.new) }
    ensures marks { OnOk result (KeepsMarks making.old making.new) }
{
    let cell = *rtl.cells.at(index);
    if !cell.word {
        return Ok(());
    }
    match cell.kind {
        CellKind::Input(pad) => add_port(making, index, pad),
        CellKind::Stored => add_slave(alloc, making, index),
        _ => Ok(()),
    }
}

/// The latches of all words that are inputs or stored.
pub fn add_latches(alloc: Global, rtl: &Rtl, making: &mut Making) -> Result<(), NoMemory>
    requires few { length rtl.now.cells < 2 ^ 32 }
    requires begun { IsMadeTo rtl.now 0 0 0 making.old }
    ensures made { OnOk result (IsMadeTo rtl.now (length rtl.now.cells) 0 0 making.new) }
    ensures marks { OnOk result (KeepsMarks making.old making.new) }
{
    for index in 0..rtl.cells.len() as u32 {
        add_latch(alloc, rtl, making, index)?;
    }
    Ok(())
}
