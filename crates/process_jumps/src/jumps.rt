//! The jumps of processes.

ghost use Rattle.std.specs.Prelude.{◌≡◌, ◌<◌, ℕ, List, Some, length, IfOk};
ghost use Rattle.mp_program.specs.declared.program.Process.{Process};
ghost use Rattle.mp_base.specs.Entries.{IsAt};
ghost use Rattle.process_plan.specs.declared.enable.Enable.{Enable};
ghost use Rattle.process_jumps.specs.Moves.{moves_in};
ghost use Rattle.process_jumps.specs.Jumps.{AreRooted, AllFallsMade, AllJumpsMade, MakesJumps};

use crate::exprs::{fall_of, union_of};
use crate::moves::{Group, Move, picked};
use mp_base::{List, NoMemory};
use mp_program::Program;
use process_plan::Enable;
use rtl_form::RtlExpr;
use std::alloc::Global;

/// The expressions that are 1 where a process calls and where it returns, if it ever does, and those that are 1 where
/// it goes on from a place, one for each place.
#[derive(Drop)]
pub struct Jumps {
    pub calls: Option<u32>,
    pub returns: Option<u32>,
    pub falls: List<u32>,
}

fn enabled_by(enables: &List<Option<Enable>>, form: u32) -> u32
    requires { (x : Enable) × IsAt enables.now form (Some x) }
    ensures { (x : Enable) × IsAt enables.now form (Some x) × (result ≡ x.expr) }
{
    match enables.at(form) {
        Some(enable) => enable.expr,
        None => unreachable!(),
    }
}

fn falls_of(
    alloc: Global,
    program: &Program,
    enables: &List<Option<Enable>>,
    moves: &[Move],
    process: u32,
    exprs: &mut List<RtlExpr>,
) -> Result<List<u32>, NoMemory>
    requires inside { process < length program.now.processes }
    requires rooted { AreRooted program.now enables.now }
    requires moves { moves.now ≡ moves_in program.now.forms enables.now }
    ensures { IfOk result (AllFallsMade program.now enables.now process exprs.old exprs.new) }
{
    let forms = &program.processes.at(process).forms;
    let Ok(count) = u32::try_from(forms.len()) else {
        return Err(NoMemory);
    };
    let mut falls = List::new(alloc);
    for place in 0..count {
        let enable = enabled_by(enables, *forms.at(place));
        let inside = picked(alloc, moves, Group::Inside { process, place })?;
        falls.push(fall_of(alloc, exprs, enable, inside.as_slice())?)?;
    }
    Ok(falls)
}

fn jumps_of(
    alloc: Global,
    program: &Program,
    enables: &List<Option<Enable>>,
    moves: &[Move],
    process: u32,
    exprs: &mut List<RtlExpr>,
) -> Result<Jumps, NoMemory>
    requires inside { process < length program.now.processes }
    requires rooted { AreRooted program.now enables.now }
    requires moves { moves.now ≡ moves_in program.now.forms enables.now }
    ensures { IfOk result (MakesJumps program.now enables.now process exprs.old exprs.new) }
{
    let calls = picked(alloc, moves, Group::Calls { process })?;
    let calls = union_of(exprs, calls)?;
    let returns = picked(alloc, moves, Group::Returns { process })?;
    let returns = union_of(exprs, returns)?;
    let falls = falls_of(alloc, program, enables, moves, process, exprs)?;
    Ok(Jumps {
        calls,
        returns,
        falls,
    })
}

/// The jumps of each process, by its enables and its moves.
///
/// # Errors
///
/// `NoMemory`, also where there are more processes or forms than 32 bits can count.
pub fn all_jumps(
    alloc: Global,
    program: &Program,
    enables: &List<Option<Enable>>,
    moves: &[Move],
    exprs: &mut List<RtlExpr>,
) -> Result<List<Jumps>, NoMemory>
    requires rooted { AreRooted program.now enables.now }
    requires moves { moves.now ≡ moves_in program.now.forms enables.now }
    ensures { IfOk result (AllJumpsMade program.now enables.now exprs.old exprs.new) }
{
    let Ok(count) = u32::try_from(program.processes.len()) else {
        return Err(NoMemory);
    };
    let mut jumps = List::new(alloc);
    for process in 0..count {
        jumps.push(jumps_of(alloc, program, enables, moves, process, exprs)?)?;
    }
    Ok(jumps)
}
