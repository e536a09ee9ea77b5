//! What all guards and values become, in the order of the text.

ghost use Rattle.std.specs.Prelude.{◌≡◌, ◌≤◌, ◌<◌, ⊤, IfOk, OnOk, None, MatchOption, length, Contains, slice_get};
ghost use Rattle.std.specs.List.{AllByRecursion};
ghost use Rattle.mp_rules.specs.declared.limits.TheConstants.{EXPR_LIMIT};
ghost use Rattle.mp_written.specs.Expansion.{all_pieces, tops};
ghost use Rattle.written_meanings.specs.Meanings.{AreMeanings};
ghost use Rattle.expansion_laws.specs.Lawful.{IsLawfulProgram};
ghost use Rattle.expansion.specs.Templates.{AreAllMade, IsInside, IsReady, IsWord, place_at, place_of};
ghost use Rattle.expansion.specs.Walking.{AddsPieces, IsWalk};

use crate::flags::tops;
use crate::item::{Item, Piece, Slot, Stop};
use crate::words::word;
use mp_base::{List, Place};
use mp_written::{Expr, Program};
use std::alloc::{AllocError, Global};
use written_meanings::Meanings;

/// The expressions of the expansion, and for each expression where what it becomes begins, if it is a guard or value.
#[derive(Drop)]
pub(crate) struct Walked {
    pub(crate) starts: List<u32>,
    pub(crate) pieces: List<Piece>,
}

/// The template of a guard or value.
fn top_word(
    alloc: Global,
    program: &Program,
    meanings: &Meanings,
    slots: &List<Slot>,
    top: u32,
) -> Result<List<Item>, AllocError>
    requires ready { IsReady program.now meanings.now slots.now None top }
    requires top { Contains (tops program.now) top }
    requires few { length (all_pieces program.now) ≤ EXPR_LIMIT }
    ensures { IfOk result (IsWord program.now None top) }
{
    match word(alloc, program, meanings, slots, None, top) {
        Ok(items) => Ok(items),
        Err(Stop::TooLong) => unreachable!(),
        Err(Stop::NoMemory) => Err(AllocError),
    }
}

/// The place of what is copied. Where none is told, it is that of an expression outside of bodies.
fn place_of(exprs: &[Expr], top: u32, at: Option<u32>) -> Place
    requires top { top < length exprs.now }
    requires inside { MatchOption at ⊤ (λ e. e < length exprs.now) }
    ensures { result ≡ place_of exprs.now (place_at (slice_get exprs.now top)) at }
{
    let expr = at.unwrap_or(top);
    exprs[expr as usize].place
}

/// Adds what the template of a guard or value becomes.
fn add(
    program: &Program,
    top: u32,
    items: &[Item],
    pieces: &mut List<Piece>,
) -> Result<(), AllocError>
    requires top { top < length program.now.exprs }
    requires inside { AllByRecursion (IsInside (length program.now.exprs)) items.now }
    ensures { OnOk result (AddsPieces program.now.exprs top items.now pieces.old pieces.new) }
{
    for item in items {
        if let Item::Copied { expr, at } = item {
            let place = place_of(program.exprs.as_slice(), top, *at);
            pieces.push(Piece { expr: *expr, place })?;
        }
    }
    Ok(())
}

/// What all guards and values become.
pub(crate) fn walk(
    alloc: Global,
    program: &Program,
    meanings: &Meanings,
    slots: &List<Slot>,
) -> Result<Walked, AllocError>
    requires meant { AreMeanings program.now meanings.now }
    requires lawful { IsLawfulProgram program.now }
    requires made { AreAllMade program.now slots.now }
    requires few { length (all_pieces program.now) ≤ EXPR_LIMIT }
    ensures { IfOk result (IsWalk program.now) }
{
    let tops = tops(alloc, program)?;
    let mut starts = List::new(alloc);
    let mut pieces = List::new(alloc);
    let Ok(count) = u32::try_from(program.exprs.len()) else {
        return Err(AllocError);
    };
    for expr in 0..count {
        starts.push(pieces.len() as u32)?;
        if *tops.at(expr) {
            let items = top_word(alloc, program, meanings, slots, expr)?;
            add(program, expr, items.as_slice(), &mut pieces)?;
        }
    }
    Ok(Walked { starts, pieces })
}
