//! From guarded transfers to a data path.

ghost use Rattle.std.specs.Prelude.{◌≡◌, ◌≤◌, ℕ, Some, IfOk, OnOk};
ghost use Rattle.rtl_form.specs.Cost.{cost};
ghost use Rattle.rtl_form.specs.Sound.{IsSound};
ghost use Rattle.control_nor.specs.Lowering.{IsLowered, Stands};
ghost use Rattle.nor_net.specs.declared.net.NetId as net_id;
ghost use Rattle.path_form.specs.Sizes.{IsNarrow, IsWithin};
ghost use Rattle.path_values.specs.Allocated.{IsAllocated};
ghost use Rattle.datapath_alloc.specs.Shared.{IsAllocatedOnce};
ghost use Rattle.mp_base.specs.declared.limits.TheConstants.{WEIGHT_LIMIT};

use crate::latches::add_latches;
use crate::next_values::add_next_values;
use crate::tasks::add_tasks;
use control_nor::{Names, lower_bits};
use datapath_finish::finish;
use datapath_making::Making;
use mp_base::NoMemory;
use nor_net::{Net, NetId};
use path_form::DataPath;
use rtl_form::Rtl;
use std::alloc::Global;

// The net of the control that stands for reset.
fn reset_of(rtl: &Rtl, names: &Names) -> Option<NetId>
    requires { (c : ℕ) → rtl.now.reset ≡ Some c → (id : net_id.NetId) × Stands names.now.cells c id }
    ensures { (c : ℕ) → rtl.now.reset ≡ Some c
        → (id : net_id.NetId) × (result ≡ Some id) × Stands names.now.cells c id }
{
    match rtl.reset {
        Some(cell) => *names.cells.at(cell),
        None => None,
    }
}

/// A data path that stands for the transfers, in which equal expressions of words share their nets.
///
/// # Errors
///
/// `NoMemory`.
pub fn allocate(alloc: Global, rtl: &Rtl) -> Result<DataPath, NoMemory>
    requires sound { IsSound rtl.now }
    requires light { cost rtl.now ≤ WEIGHT_LIMIT }
    ensures allocated { IfOk result (IsAllocated rtl.now) }
    ensures within { IfOk result (IsWithin (cost rtl.now)) }
    ensures narrow { IfOk result (IsNarrow (cost rtl.now)) }
    ensures once { IfOk result (IsAllocatedOnce rtl.now) }
{
    let mut control = Net::new(alloc);
    let names = lower_bits(alloc, rtl, &mut control)?;
    let reset = reset_of(rtl, &names);
    let mut making = Making::new(alloc, rtl, control, names, reset)?;
    add_latches(alloc, rtl, &mut making)?;
    add_tasks(alloc, rtl, &mut making)?;
    add_next_values(alloc, rtl, &mut making)?;
    finish(alloc, rtl, making)
}
