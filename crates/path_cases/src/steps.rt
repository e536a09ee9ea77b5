//! The steps from transfers to a flat net. Each tells no more than the next one asks for.

ghost use Rattle.std.specs.Prelude.{◌≡◌, ◌≤◌, IfOk};
ghost use Rattle.rtl_form.specs.Cost.{cost};
ghost use Rattle.rtl_form.specs.Sound.{IsSound};
ghost use Rattle.path_form.specs.Showing.{ShowsTransfers};
ghost use Rattle.path_cases.specs.Flat.{IsFlatOf};
ghost use Rattle.mp_base.specs.declared.limits.TheConstants.{WEIGHT_LIMIT};

use datapath_alloc::allocate;
use mp_base::NoMemory;
use path_flat::flatten;
use path_form::laws::flat_nets_follow;
use path_form::{DataPath, Flattened};
use path_values::laws::{allocated_paths_realize, realized_paths_show};
use rtl_form::Rtl;
use std::alloc::Global;

// A path that shows transfers.
fn path_of(alloc: Global, rtl: &Rtl) -> Result<DataPath, NoMemory>
    requires sound { IsSound rtl.now }
    requires light { cost rtl.now ≤ WEIGHT_LIMIT }
    ensures pads { IfOk result (λ path. path.pads ≡ rtl.now.pads) }
    ensures shown { IfOk result (ShowsTransfers rtl.now) }
{
    allocated_paths_realize();
    realized_paths_show();
    let path = allocate(alloc, rtl)?;
    Ok(path)
}

/// The flat net of a path of transfers, which shows what these show, from any values.
///
/// # Errors
///
/// `NoMemory`.
pub(crate) fn flat_of(alloc: Global, rtl: &Rtl) -> Result<Flattened, NoMemory>
    requires sound { IsSound rtl.now }
    requires light { cost rtl.now ≤ WEIGHT_LIMIT }
    ensures { IfOk result (IsFlatOf rtl.now) }
{
    flat_nets_follow();
    let path = path_of(alloc, rtl)?;
    let flat = flatten(alloc, &path)?;
    Ok(flat)
}
