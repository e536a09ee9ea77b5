//! Sums over pieces, class by class.

ghost use Rattle.std.specs.Prelude.{◌≡◌, ℕ, ◌+◌, ◌<◌, length, All, IfOk, OnOk, slice_index};
ghost use Rattle.lam_geom.specs.Squares.{rank};
ghost use Rattle.mask_sizes.specs.Sums.{AreValues, channel_edge, class_area, end_edge, given, is_of};

use lam_geom::Layer;
use mask_pieces::Piece;
use mp_base::{List, NoMemory};
use net_sizes::{area, shared_edge};
use std::alloc::Global;
use union_find::Pair;

/// What is measured: channels, or the conductors of a layer.
#[derive(Clone, Copy)]
pub(crate) enum Measured {
    Channels,
    Conductors(Layer),
}

impl Measured {
    fn has(self, piece: &Piece) -> bool
        ensures { result ≡ is_of self piece.now }
    {
        match self {
            Measured::Channels => !piece.part.conducts(),
            Measured::Conductors(layer) => piece.part.conducts() && piece.rect.layer == layer,
        }
    }
}

// Adds an amount to the sum of a class. A sum of 2^128 counts as want of memory.
fn add(sums: &mut [u128], to: u32, amount: u128) -> Result<(), NoMemory>
    ensures { OnOk result ((k : ℕ) → k < length sums.old
        → slice_index sums.new k ≡ slice_index sums.old k + given to amount k) }
{
    let to = to as usize;
    if to < sums.len() {
        let Some(sum) = sums[to].checked_add(amount) else {
            return Err(NoMemory);
        };
        sums[to] = sum;
    }
    Ok(())
}

/// The areas of so many classes, by the numbers of the classes of pieces.
pub(crate) fn areas(
    alloc: Global,
    count: usize,
    what: Measured,
    pieces: &[Piece],
    classes: &[u32],
) -> Result<List<u128>, NoMemory>
    requires { length classes.now ≡ length pieces.now }
    ensures { IfOk result (AreValues (class_area what pieces.now classes.now) count) }
{
    let mut sums = vec![in alloc; 0u128; count]?;
    for i in 0..pieces.len() {
        let piece = &pieces[i];
        if what.has(piece) {
            add(&mut sums, classes[i], area(&piece.rect))?;
        }
    }
    Ok(List::from_vec(sums))
}

// Adds the edge of a channel that the second piece shares with the first, if it is an end of it.
fn add_end(
    sums: &mut [u128],
    pieces: &[Piece],
    channels: &[u32],
    first: u32,
    second: u32,
) -> Result<(), NoMemory>
    requires first { first < length pieces.now }
    requires second { second < length pieces.now }
    requires channels { length channels.now ≡ length pieces.now }
    ensures { OnOk result ((k : ℕ) → k < length sums.old
        → slice_index sums.new k ≡ slice_index sums.old k + end_edge pieces.now channels.now k first second) }
{
    let p = &pieces[first as usize];
    let q = &pieces[second as usize];
    if !p.part.conducts() && q.part.conducts() {
        add(
            sums,
            channels[first as usize],
            shared_edge(&p.rect, &q.rect),
        )?;
    }
    Ok(())
}

/// The edges that so many channels share with their ends. The pairs are of tiles of diffusion that touch, and the other
/// lists have the number of each tile's piece, and for each piece that of its channel.
pub(crate) fn edges(
    alloc: Global,
    count: usize,
    touching: &[Pair],
    numbers: &[u32],
    pieces: &[Piece],
    channels: &[u32],
) -> Result<List<u128>, NoMemory>
    requires tiles { All (λ p. (p.a < length numbers.now) × (p.b < length numbers.now)) touching.now }
    requires pieces { All (λ k. k < length pieces.now) numbers.now }
    requires channels { length channels.now ≡ length pieces.now }
    ensures { IfOk result (AreValues (channel_edge numbers.now pieces.now channels.now touching.now) count) }
{
    let mut sums = vec![in alloc; 0u128; count]?;
    for pair in touching {
        let a = numbers[pair.a as usize];
        let b = numbers[pair.b as usize];
        add_end(&mut sums, pieces, channels, a, b)?;
        add_end(&mut sums, pieces, channels, b, a)?;
    }
    Ok(List::from_vec(sums))
}
