//! The gates of channels.

ghost use Rattle.std.specs.Prelude.{◌≡◌, ◌<◌, ◌+◌, All, IfOk, map};
ghost use Rattle.mask_nodes.specs.Ends.{gate_of, HasGate};

use mask_pieces::Piece;
use mp_base::{List, NoMemory};
use std::alloc::Global;

/// For each channel, by the number of its least piece, the node of the polysilicon over its first square. The list of
/// what is over places has those of tiles from the first place on.
pub(crate) fn gates(
    alloc: Global,
    first: usize,
    over: &[Option<u32>],
    pieces: &[Piece],
    nodes: &[u32],
    roots: &[u32],
) -> Result<List<u32>, NoMemory>
    requires { All (HasGate first over.now pieces.now nodes.now) roots.now }
    ensures { IfOk result (λ v. v ≡ map (gate_of first over.now pieces.now nodes.now) roots.now) }
{
    let mut gates = List::from_vec(Vec::with_capacity(alloc, roots.len())?);
    for root in roots {
        gates.push(gate(first, over, pieces, nodes, *root))?;
    }
    Ok(gates)
}

fn gate(first: usize, over: &[Option<u32>], pieces: &[Piece], nodes: &[u32], root: u32) -> u32
    requires { HasGate first over.now pieces.now nodes.now root }
    ensures { result ≡ gate_of first over.now pieces.now nodes.now root }
{
    let tile = pieces[root as usize].tile as usize;
    match over[first + tile] {
        Some(piece) => nodes[piece as usize],
        None => 0,
    }
}
