//! Tests of guesses.

ghost use Rattle.std.specs.Prelude.{◌≡◌, ℕ, ◌+◌, ◌<◌, ◌≤◌, true, false, length, slice_index, IfOk};
ghost use Rattle.mp_program.specs.declared.program.Def.{Def};
ghost use Rattle.mp_program.specs.Names.{is_driven};
ghost use Rattle.mp_program.specs.Reads.{Chain};
ghost use Rattle.name_meanings.specs.Meaning.{AreMeanings};
ghost use Rattle.mp_order.specs.Demands.{OwnNames, WeighsDriven, IsDriven};
ghost use Rattle.mp_order.specs.Ranks.{IsRanking, IsListing, Climbs};

use crate::demands::demands;
use crate::table::{read, read_wide, zeros};
use mp_base::List;
use mp_program::{Def, Program};
use name_meanings::Meanings;
use std::alloc::{AllocError, Global};

/// The numbers of the driven definitions, and 0 for each other one.
pub fn keep_driven(
    alloc: Global,
    program: &Program,
    numbers: &[u32],
) -> Result<List<u32>, AllocError>
    ensures { IfOk result (WeighsDriven program.now) }
{
    let mut kept = zeros(alloc, program.defs.len())?;
    for (d, def) in program.defs.as_slice().iter().enumerate() {
        if def.what.is_driven() {
            kept.put(d, read(numbers, d));
        }
    }
    Ok(kept)
}

/// The same of one definition.
fn falls_at(def: &Def, demand: u64, rank: u32, loose: u32) -> bool
    ensures { result ≡ true → is_driven def.now.what ≡ true → (demand ≤ rank) × (loose ≡ 0 → demand < rank) }
{
    let rank = u64::from(rank);
    !def.what.is_driven() || demand < rank || (loose > 0 && demand == rank)
}

/// Whether each driven definition demands no more than its rank, and less unless it is loose.
fn falls(program: &Program, demands: &List<u64>, ranks: &[u32], loose: &[u32]) -> bool
    ensures { result ≡ true → (d : ℕ) (x : Def) → IsDriven program.now d x
        → (slice_index demands.now d ≤ slice_index ranks.now d)
        × (slice_index loose.now d ≡ 0 → slice_index demands.now d < slice_index ranks.now d) }
{
    for (d, def) in program.defs.as_slice().iter().enumerate() {
        if !falls_at(def, read_wide(demands, d), read(ranks, d), read(loose, d)) {
            return false;
        }
    }
    true
}

/// Whether ranks don't rise from a definition to those that it reads, and fall unless it is loose.
pub fn is_ranking(
    alloc: Global,
    program: &Program,
    meanings: &Meanings,
    ranks: &[u32],
    loose: &[u32],
) -> Result<bool, AllocError>
    requires meant { AreMeanings program.now meanings.now }
    requires own { OwnNames program.now }
    requires driven { WeighsDriven program.now ranks.now }
    ensures { IfOk result (λ good. good ≡ true → IsRanking program.now ranks.now loose.now) }
{
    let demands = demands(alloc, program, meanings, ranks)?;
    Ok(falls(program, &demands, ranks, loose))
}

/// Whether each driven definition stands in a list at its rank.
fn lists_all(program: &Program, ranks: &[u32], order: &[u32]) -> bool
    ensures { result ≡ true → (d : ℕ) (x : Def) → IsDriven program.now d x
        → (k : ℕ) × (k < length order.now) × (slice_index order.now k ≡ d) × (slice_index ranks.now d ≡ k + 1) }
{
    for (d, def) in program.defs.as_slice().iter().enumerate() {
        if !stands(def, order, d, read(ranks, d)) {
            return false;
        }
    }
    true
}

/// Whether a definition stands in a list at a rank, which counts from 1.
fn stands_at(order: &[u32], d: usize, rank: u32) -> bool
    ensures { result ≡ true → (k : ℕ) × (k < length order.now) × (slice_index order.now k ≡ d) × (rank ≡ k + 1) }
{
    if rank == 0 || rank as usize > order.len() {
        return false;
    }
    order[rank as usize - 1] as usize == d
}

/// The same where it is driven.
fn stands(def: &Def, order: &[u32], d: usize, rank: u32) -> bool
    ensures { result ≡ true → is_driven def.now.what ≡ true → (k : ℕ) × (k < length order.now)
        × (slice_index order.now k ≡ d) × (rank ≡ k + 1) }
{
    !def.what.is_driven() || stands_at(order, d, rank)
}

/// Whether a definition is driven and has a rank.
fn has_rank(program: &Program, ranks: &[u32], d: u32, rank: usize) -> bool
    ensures { result ≡ true → ((x : Def) × IsDriven program.now d x) × (slice_index ranks.now d ≡ rank) }
{
    if d as usize >= program.defs.len() {
        return false;
    }
    program.defs.at(d).what.is_driven() && read(ranks, d as usize) as usize == rank
}

/// Whether each entry of a list is a driven definition at its rank.
fn lists_only(program: &Program, ranks: &[u32], order: &[u32]) -> bool
    ensures { result ≡ true → (k : ℕ) → k < length order.now
        → ((x : Def) × IsDriven program.now (slice_index order.now k) x)
        × (slice_index ranks.now (slice_index order.now k) ≡ k + 1) }
{
    for (k, d) in order.iter().enumerate() {
        if !has_rank(program, ranks, *d, k + 1) {
            return false;
        }
    }
    true
}

/// Whether a list has the driven definitions by their ranks, which count from 1.
pub fn is_listing(program: &Program, ranks: &[u32], order: &[u32]) -> bool
    ensures { result ≡ true → IsListing program.now ranks.now order.now }
{
    lists_all(program, ranks, order) && lists_only(program, ranks, order)
}

fn climbs_at(weight: u32, demand: u64, top: u32, last: bool) -> bool
    ensures { result ≡ true → (weight ≤ top) × (0 < weight → last ≡ false → weight < demand) }
{
    weight <= top && (weight == 0 || last || u64::from(weight) < demand)
}

/// Whether no weight is greater than that of the target, and each other definition that has one demands a greater one.
fn climbs(demands: &List<u64>, weights: &[u32], target: u32) -> bool
    ensures { result ≡ true → Climbs demands.now weights.now target }
{
    let top = read(weights, target as usize);
    for (d, weight) in weights.iter().enumerate() {
        if !climbs_at(*weight, read_wide(demands, d), top, d == target as usize) {
            return false;
        }
    }
    top > 0 && read_wide(demands, target as usize) > 0
}

/// Whether weights show that a definition is on a closed chain.
pub fn is_closed(
    alloc: Global,
    program: &Program,
    meanings: &Meanings,
    weights: &[u32],
    target: u32,
) -> Result<bool, AllocError>
    requires meant { AreMeanings program.now meanings.now }
    requires own { OwnNames program.now }
    requires driven { WeighsDriven program.now weights.now }
    ensures { IfOk result (λ closed. closed ≡ true → Chain program.now target target) }
{
    let demands = demands(alloc, program, meanings, weights)?;
    Ok(climbs(&demands, weights, target))
}
