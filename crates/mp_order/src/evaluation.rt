//! Orders of evaluation.

ghost use Rattle.std.specs.Prelude.{◌≡◌, length, MatchOption, IfOk};
ghost use Rattle.name_meanings.specs.Meaning.{AreMeanings};
ghost use Rattle.mp_order.specs.Demands.{OwnNames};
ghost use Rattle.mp_order.specs.Ranks.{IsListing};
ghost use Rattle.mp_order.specs.Evaluation.{IsEvaluation};

use crate::earliest::earliest;
use crate::judge::{is_closed, is_listing, is_ranking, keep_driven};
use crate::search::search;
use crate::table::read;
use evaluation_guesses::{Graph, climb, guess_ranks};
use mp_base::{List, Place};
use mp_program::{Program, laws};
use name_meanings::Meanings;
use std::alloc::{AllocError, Global};

/// How the driven definitions of a program can be evaluated.
#[derive(Drop)]
pub enum Evaluation {
    /// One after another, each after all that it reads: their indices.
    Order(List<u32>),
    /// They can't: the earliest `setq` of one that reads itself through a chain.
    Closed(Place),
}

/// A list of the definitions by their ranks, if there is one.
fn list_by(
    alloc: Global,
    program: &Program,
    ranks: &[u32],
    count: u32,
) -> Result<Option<List<u32>>, AllocError>
    ensures { IfOk result (λ list. MatchOption list (Unit {0}) (IsListing program.now ranks.now)) }
{
    let length = ranks.iter().filter(|rank| **rank > 0).count();
    let mut order = Vec::from_elem(alloc, 0, length)?;
    for d in 0..count {
        let rank = read(ranks, d as usize) as usize;
        if rank > 0 && rank <= order.len() {
            order[rank - 1] = d;
        }
    }
    if is_listing(program, ranks, order.as_slice()) {
        Ok(Some(List::from_vec(order)))
    } else {
        Ok(None)
    }
}

/// What leads from definitions to the definitions that they read.
fn graph_of(alloc: Global, program: &Program, meanings: &Meanings) -> Result<Graph, AllocError> {
    let named = meanings.exprs.as_slice();
    Graph::new(alloc, program, named, meanings.targets.as_slice())
}

/// The same by a guess, where that stands the test: linear.
fn guess(
    alloc: Global,
    program: &Program,
    meanings: &Meanings,
    count: u32,
) -> Result<Option<Evaluation>, AllocError>
    requires meant { AreMeanings program.now meanings.now }
    requires own { OwnNames program.now }
    ensures { IfOk result (λ guess. MatchOption guess (Unit {0}) (IsEvaluation program.now)) }
{
    laws::sound(program);
    laws::sets(program);
    laws::reads(program);
    let graph = graph_of(alloc, program, meanings)?;
    let guessed = guess_ranks(alloc, &graph, program)?;
    let loose = guessed.loose.as_slice();
    let ranks = keep_driven(alloc, program, guessed.ranks.as_slice())?;
    if !is_ranking(alloc, program, meanings, ranks.as_slice(), loose)? {
        return Ok(None);
    }
    match earliest(program, meanings, loose) {
        None => match list_by(alloc, program, ranks.as_slice(), count)? {
            Some(order) => Ok(Some(Evaluation::Order(order))),
            None => Ok(None),
        },
        Some(setting) => {
            let climb = climb(alloc, &graph, program, setting.target)?;
            let weights = keep_driven(alloc, program, climb.as_slice())?;
            if is_closed(alloc, program, meanings, weights.as_slice(), setting.target)? {
                Ok(Some(Evaluation::Closed(setting.place)))
            } else {
                Ok(None)
            }
        }
    }
}

/// An order in which the driven definitions can be evaluated, or the earliest place where rule E33 is broken. Linear
/// where each form and each expression stands in one place.
///
/// # Errors
/// Want of memory.
pub fn evaluation_order(
    alloc: Global,
    program: &Program,
    meanings: &Meanings,
) -> Result<Evaluation, AllocError>
    requires meant { AreMeanings program.now meanings.now }
    requires own { OwnNames program.now }
    ensures { IfOk result (IsEvaluation program.now) }
{
    let count = match u32::try_from(program.defs.len()) {
        Ok(count) => count,
        Err(_) => return Err(AllocError),
    };
    match guess(alloc, program, meanings, count)? {
        Some(evaluation) => Ok(evaluation),
        None => search(alloc, program, meanings, count),
    }
}
