//! The ends of channels.

ghost use Rattle.std.specs.Prelude.{◌≡◌, ◌↔◌, ◌<◌, ◌≤◌, ℕ, length, get_or, All, AllPairs, Contains, IfOk, OnOk};
ghost use Rattle.std.specs.List.Sorted.{IsNonDecreasingBy};
ghost use Rattle.union_find.specs.declared.pair.Pair.{Pair};
ghost use Rattle.piece_classes.specs.Linking.{Gains};
ghost use Rattle.mask_nodes.specs.Ends.{pair_of, IsGivenBy, IsEndAt, IsEndOf};

use mask_pieces::Piece;
use mp_base::{List, NoMemory};
use std::alloc::Global;
use union_find::Pair;

/// The numbers of each channel and each node of diffusion beside it, those of the first channels first. The pairs are
/// of tiles of diffusion that touch, and the other lists have the number of each tile's piece, and for each piece
/// that of its channel and that of its node.
pub(crate) fn all_ends(
    alloc: Global,
    touching: &[Pair],
    numbers: &[u32],
    pieces: &[Piece],
    channels: &[u32],
    nodes: &[u32],
) -> Result<Vec<Pair>, NoMemory>
    requires tiles { All (λ p. (p.a < length numbers.now) × (p.b < length numbers.now)) touching.now }
    requires pieces { All (λ k. k < length pieces.now) numbers.now }
    requires channels { length channels.now ≡ length pieces.now }
    requires nodes { length nodes.now ≡ length pieces.now }
    ensures each { IfOk result (λ v. (x : Pair) → Contains v.items x
        ↔ IsGivenBy (IsEndOf numbers.now pieces.now channels.now nodes.now) touching.now (length touching.now) x) }
    ensures sorted { IfOk result (λ v. IsNonDecreasingBy (λ (x : Pair). x.a) v.items) }
{
    let mut ends = List::new(alloc);
    list_ends(&mut ends, touching, numbers, pieces, channels, nodes)?;
    let mut ends = ends.into_vec();
    ends.sort_by_key(|end| end.a)?;
    Ok(ends)
}

fn list_ends(
    ends: &mut List<Pair>,
    touching: &[Pair],
    numbers: &[u32],
    pieces: &[Piece],
    channels: &[u32],
    nodes: &[u32],
) -> Result<(), NoMemory>
    requires tiles { All (λ p. (p.a < length numbers.now) × (p.b < length numbers.now)) touching.now }
    requires pieces { All (λ k. k < length pieces.now) numbers.now }
    requires channels { length channels.now ≡ length pieces.now }
    requires nodes { length nodes.now ≡ length pieces.now }
    ensures { OnOk result (Gains ends.old ends.new
        (IsGivenBy (IsEndOf numbers.now pieces.now channels.now nodes.now) touching.now (length touching.now))) }
{
    for pair in touching {
        let a = numbers[pair.a as usize];
        let b = numbers[pair.b as usize];
        add_end(ends, a, b, pieces, channels, nodes)?;
        add_end(ends, b, a, pieces, channels, nodes)?;
    }
    Ok(())
}

// Adds the end that the second piece is of the first one's channel, if it is one.
fn add_end(
    ends: &mut List<Pair>,
    first: u32,
    second: u32,
    pieces: &[Piece],
    channels: &[u32],
    nodes: &[u32],
) -> Result<(), NoMemory>
    requires first { first < length pieces.now }
    requires second { second < length pieces.now }
    requires channels { length channels.now ≡ length pieces.now }
    requires nodes { length nodes.now ≡ length pieces.now }
    ensures { OnOk result (Gains ends.old ends.new (IsEndAt pieces.now channels.now nodes.now first second)) }
{
    let is_channel = !pieces[first as usize].part.conducts();
    if is_channel && pieces[second as usize].part.conducts() {
        ends.push(Pair {
            a: channels[first as usize],
            b: nodes[second as usize],
        })?;
    }
    Ok(())
}

/// The nodes of one channel's ends, in ascending order. Those of channels before it stand before the place.
pub(crate) fn take_ends(
    alloc: Global,
    ends: &[Pair],
    place: &mut usize,
    channel: u32,
) -> Result<List<u32>, NoMemory>
    requires sorted { IsNonDecreasingBy (λ (x : Pair). x.a) ends.now }
    requires within { place.old ≤ length ends.now }
    requires before { (j : ℕ) → j < place.old → (get_or ends.now j (pair_of 0 0)).a < channel }
    requires after { (j : ℕ) → place.old ≤ j → j < length ends.now → channel ≤ (get_or ends.now j (pair_of 0 0)).a }
    ensures within { OnOk result (place.new ≤ length ends.now) }
    ensures before { OnOk result ((j : ℕ) → j < place.new → (get_or ends.now j (pair_of 0 0)).a ≤ channel) }
    ensures after { OnOk result ((j : ℕ) → place.new ≤ j → j < length ends.now
        → channel < (get_or ends.now j (pair_of 0 0)).a) }
    ensures ascending { IfOk result (λ v. AllPairs ◌<◌ v) }
    ensures each { IfOk result (λ v. (k : ℕ) → Contains v k ↔ Contains ends.now (pair_of channel k)) }
{
    let mut nodes = List::new(alloc);
    while *place < ends.len() && ends[*place].a == channel {
        nodes.push(ends[*place].b)?;
        *place += 1;
    }
    let mut nodes = nodes.into_vec();
    nodes.sort_unstable();
    nodes.dedup();
    Ok(List::from_vec(nodes))
}
