//! The expressions that tell at which places processes are.

ghost use Rattle.std.specs.Prelude.{◌<◌, length, IfOk};
ghost use Rattle.mp_rules.specs.Breaking.{IsUnbroken};
ghost use Rattle.process_plan.specs.Roles.{AreCells};
ghost use Rattle.process_enables.specs.Copies.{HasTruth};
ghost use Rattle.process_enables.specs.Places.{PutsFirst, PutsPlaces, PutsAllPlaces};

use crate::exprs::put;
use mp_base::{List, NoMemory, Op};
use mp_program::Program;
use process_layout::Layout;
use process_plan::Role;
use rtl_form::RtlExpr;
use std::alloc::Global;

// What is 1 where none of these is, or the expression that is true where there are none of these.
fn put_first(exprs: &mut List<RtlExpr>, others: List<u32>) -> Result<u32, NoMemory>
    ensures { IfOk result (PutsFirst others exprs.old exprs.new) }
{
    if others.len() == 0 {
        return Ok(0);
    }
    let none = RtlExpr::Apply {
        op: Op::Nor,
        index: 0,
        args: others,
    };
    put(exprs, none)
}

// The expressions of the places of a process: their cells, but for place 0, which has none.
fn put_places(
    alloc: Global,
    program: &Program,
    layout: &Layout,
    exprs: &mut List<RtlExpr>,
    process: u32,
) -> Result<List<u32>, NoMemory>
    requires unbroken { IsUnbroken program.now }
    requires cells { AreCells program.now layout.now.roles layout.now.cells }
    requires inside { process < length program.now.processes }
    requires truth { HasTruth exprs.old }
    ensures { IfOk result (PutsPlaces program.now layout.now.roles layout.now.cells process exprs.old exprs.new) }
{
    let Ok(count) = u32::try_from(program.processes.at(process).forms.len()) else {
        return Err(NoMemory);
    };
    let mut places = List::new(alloc);
    let mut others = List::new(alloc);
    places.push(0)?;
    for place in 1..count {
        let Some(cell) = layout.cell(Role::Placed { process, place }) else {
            return Err(NoMemory);
        };
        let expr = put(exprs, RtlExpr::Cell(cell))?;
        places.push(expr)?;
        others.push(expr)?;
    }
    let first = put_first(exprs, others)?;
    places.set(0, first);
    Ok(places)
}

/// The expressions of the places of each process.
///
/// # Errors
///
/// `NoMemory`.
pub(crate) fn put_all_places(
    alloc: Global,
    program: &Program,
    layout: &Layout,
    exprs: &mut List<RtlExpr>,
) -> Result<List<List<u32>>, NoMemory>
    requires unbroken { IsUnbroken program.now }
    requires cells { AreCells program.now layout.now.roles layout.now.cells }
    requires truth { HasTruth exprs.old }
    ensures { let l = layout.now in IfOk result
        (PutsAllPlaces program.now l.roles l.cells (length program.now.processes) exprs.old exprs.new) }
{
    let Ok(count) = u32::try_from(program.processes.len()) else {
        return Err(NoMemory);
    };
    let mut all = List::new(alloc);
    for process in 0..count {
        let places = put_places(alloc, program, layout, exprs, process)?;
        all.push(places)?;
    }
    Ok(all)
}
