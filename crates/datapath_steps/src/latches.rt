//! Words that latches have.

ghost use Rattle.std.specs.Prelude.{OnOk};
ghost use Rattle.datapath_making.specs.Sizes.{HasRoom};
ghost use Rattle.datapath_making.specs.Steps.{IsFree, IsPortMade, IsSlaveMade, IsStep};
ghost use Rattle.datapath_making.specs.WellMade.{IsWellMade};

use crate::parts;
use datapath_making::Making;
use mp_base::NoMemory;
use std::alloc::Global;

/// The word of an input cell: a latch on the net of its pad.
///
/// # Errors
///
/// `NoMemory`: then some of the nets may have been added.
pub fn add_port(making: &mut Making, cell: u32, pad: u32) -> Result<(), NoMemory>
    requires made { IsWellMade making.old }
    requires room { HasRoom 2 making.old }
    requires cell { IsFree making.old.cell_words cell }
    requires pad { IsFree making.old.pads pad }
    ensures step { OnOk result (IsStep 2 0 making.old making.new) }
    ensures port { OnOk result (IsPortMade cell pad making.old making.new) }
{
    let port = parts::add_port(&mut making.slices.net)?;
    making.cell_words.set(cell, Some(port.latch));
    making.pads.set(pad, Some(port.pad));
    Ok(())
}

/// The word of a stored cell, and its slave, which is fed when the cell has its next value.
///
/// # Errors
///
/// `NoMemory`: then some of the nets may have been added.
pub fn add_slave(alloc: Global, making: &mut Making, cell: u32) -> Result<(), NoMemory>
    requires made { IsWellMade making.old }
    requires room { HasRoom 2 making.old }
    requires cell { IsFree making.old.cell_words cell }
    ensures step { OnOk result (IsStep 2 0 making.old making.new) }
    ensures slave { OnOk result (IsSlaveMade cell making.old making.new) }
{
    let word = parts::add_slave(alloc, &mut making.slices.net)?;
    making.cell_words.set(cell, Some(word));
    Ok(())
}
