//! Two lists of pieces as one, in order.

ghost use Rattle.std.specs.Prelude.{◌≡◌, ◌≢◌, ◌<◌, ◌≤◌, ◌⊎◌, ◌↔◌, length, AllPairs, Contains, IfOk, MatchBool};
ghost use Rattle.mask_pieces.specs.declared.piece.Piece.{Piece};
ghost use Rattle.mask_pieces.specs.Pieces.{IsBefore, AreApart};
ghost use Rattle.mask_pieces.specs.Merging.{ComesFirst};

use crate::piece::Piece;
use mp_base::{List, NoMemory};
use std::alloc::Global;

/// All of both lists.
pub(crate) fn merge(alloc: Global, a: &[Piece], b: &[Piece]) -> Result<List<Piece>, NoMemory>
    requires first { AllPairs IsBefore a.now }
    requires second { AllPairs IsBefore b.now }
    requires apart { AreApart a.now b.now }
    ensures ascending { IfOk result (λ v. AllPairs IsBefore v) }
    ensures all { IfOk result (λ v. (p : Piece) → Contains v p ↔ (Contains a.now p ⊎ Contains b.now p)) }
{
    let mut merged = List::from_vec(Vec::with_capacity(alloc, a.len() + b.len())?);
    let mut i = 0;
    let mut j = 0;
    while i < a.len() || j < b.len() {
        if comes_first(a, i, b, j) {
            merged.push(a[i])?;
            i += 1;
        } else {
            merged.push(b[j])?;
            j += 1;
        }
    }
    Ok(merged)
}

// Whether the next is one of the first list.
fn comes_first(a: &[Piece], i: usize, b: &[Piece], j: usize) -> bool
    requires i_in { i ≤ length a.now }
    requires j_in { j ≤ length b.now }
    requires some { (i < length a.now) ⊎ (j < length b.now) }
    requires apart { AreApart a.now b.now }
    ensures { MatchBool result (ComesFirst a.now i b.now j) (ComesFirst b.now j a.now i) }
{
    if i == a.len() {
        false
    } else if j == b.len() {
        true
    } else {
        a[i].is_before(&b[j])
    }
}
