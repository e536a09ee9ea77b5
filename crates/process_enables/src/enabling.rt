//! The expressions of a program, and when its forms are active.

ghost use Rattle.std.specs.Prelude.{IfOk};
ghost use Rattle.mp_rules.specs.Breaking.{IsUnbroken};
ghost use Rattle.process_plan.specs.Roles.{AreCells};
ghost use Rattle.process_layout.specs.Steps.{IsEnabling};

use crate::copies::copies;
use crate::forms::enable_all_inner;
use crate::places::put_all_places;
use crate::roots::roots;
use mp_base::NoMemory;
use mp_program::Program;
use mp_program::laws::{effects, sound, values};
use process_layout::{Enabling, Layout};
use std::alloc::Global;

/// The copies of a program's expressions, those that tell at which places its processes are, and the enables of its
/// forms, where the layout is its own.
///
/// # Errors
///
/// `NoMemory`.
pub fn enable_forms(alloc: Global, program: &Program, layout: &Layout) -> Result<Enabling, NoMemory>
    requires unbroken { IsUnbroken program.now }
    requires cells { AreCells program.now layout.now.roles layout.now.cells }
    ensures { IfOk result (IsEnabling program.now layout.now.roles layout.now.cells) }
{
    sound(program);
    values(program);
    effects(program);
    let mut exprs = copies(alloc, program, layout)?;
    let places = put_all_places(alloc, program, layout, &mut exprs)?;
    let mut enables = roots(alloc, program, &places)?;
    enable_all_inner(alloc, program, &mut exprs, &mut enables)?;
    Ok(Enabling {
        exprs,
        enables,
        places,
    })
}
