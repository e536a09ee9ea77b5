//! The first nets of all cells.

ghost use Rattle.std.specs.Prelude.{◌≡◌, None, IfOk, length, replicate};
ghost use Rattle.std.specs.List.{sum_by};
ghost use Rattle.rtl_form.specs.Sound.{IsSound};
ghost use Rattle.bit_gates.specs.Adding.{HasRoom};
ghost use Rattle.bit_gates.specs.Cells.{first_cost};
ghost use Rattle.control_nor.specs.First.{AreFirstDone};

use bit_gates::{Rails, lower_first};
use mp_base::{List, NoMemory};
use nor_net::{Net, NetId};
use rtl_form::Rtl;
use std::alloc::Global;

/// As many entries without nets.
pub fn no_bits(alloc: Global, count: usize) -> Result<List<Option<Rails>>, NoMemory>
    ensures { IfOk result (λ xs. xs ≡ replicate count None) }
{
    Ok(List::from_vec(vec![in alloc; None; count]?))
}

// The same for pads.
fn no_pads(alloc: Global, count: usize) -> Result<List<Option<NetId>>, NoMemory>
    ensures { IfOk result (λ xs. xs ≡ replicate count None) }
{
    Ok(List::from_vec(vec![in alloc; None; count]?))
}

/// The bits of cells, and the nets of input pads.
#[derive(Drop)]
pub struct First {
    pub cells: List<Option<Rails>>,
    pub pads: List<Option<NetId>>,
}

/// The latches of all input bits and the slaves of all stored bits.
pub fn lower_all_first(alloc: Global, rtl: &Rtl, net: &mut Net) -> Result<First, NoMemory>
    requires sound { IsSound rtl.now }
    requires room { HasRoom (sum_by first_cost rtl.now.cells) net.old }
    ensures { IfOk result (λ f. AreFirstDone rtl.now (length rtl.now.cells) net.old net.new f.cells f.pads) }
{
    let mut cells = List::new(alloc);
    let mut pads = no_pads(alloc, rtl.pads.inputs.len())?;
    for cell in rtl.cells.as_slice() {
        let rails = lower_first(alloc, net, *cell, &mut pads)?;
        cells.push(rails)?;
    }
    Ok(First { cells, pads })
}
