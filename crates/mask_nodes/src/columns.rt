//! The nodes at places.

ghost use Rattle.std.specs.Prelude.{◌≡◌, ◌+◌, ◌<◌, ◌≤◌, length, get_or, map, take, drop, All, IfOk, List};
ghost use Rattle.std.specs.Option.{ForSome, option_map};
ghost use Rattle.lam_geom.specs.declared.layer.Layer.TheVariants.{NM, NP, ND};
ghost use Rattle.lam_geom.specs.declared.place.Point.{Point};
ghost use Rattle.lam_geom.specs.declared.rect.Rect.{Rect};
ghost use Rattle.piece_classes.specs.Classed.{node_squares};
ghost use Rattle.mask_nodes.specs.Drawn.{AreNodesOver, AreClassedMasks};

use mask_pieces::{Cut, Masks};
use mp_base::{List, NoMemory};
use piece_classes::Classed;
use std::alloc::Global;

/// For each of the places that were asked for the node of the conductor there, layer by layer.
#[derive(Drop)]
pub(crate) struct Columns {
    pub(crate) metal: List<Option<u32>>,
    pub(crate) polysilicon: List<Option<u32>>,
    pub(crate) diffusion: List<Option<u32>>,
}

pub(crate) fn node_columns(
    alloc: Global,
    count: usize,
    masks: &Masks,
    cut: &Cut,
    classes: &Classed,
) -> Result<Columns, NoMemory>
    ghost drawn: { List Rect × List Point }
    requires classed { AreClassedMasks drawn.0 drawn.1 masks.now cut.now classes.now }
    requires count { count ≡ length drawn.1 }
    ensures metal { IfOk result
        (λ c. AreNodesOver drawn.0 (node_squares cut.now.pieces classes.now.nodes) NM drawn.1 c.metal) }
    ensures polysilicon { IfOk result
        (λ c. AreNodesOver drawn.0 (node_squares cut.now.pieces classes.now.nodes) NP drawn.1 c.polysilicon) }
    ensures diffusion { IfOk result
        (λ c. AreNodesOver drawn.0 (node_squares cut.now.pieces classes.now.nodes) ND drawn.1 c.diffusion) }
{
    let first = masks.contacts.tiles.len();
    let numbers = classes.nodes.numbers.as_slice();
    let metal = nodes_over(alloc, cut.metal.over.as_slice(), first, count, numbers)?;
    let polysilicon = nodes_over(
        alloc,
        cut.polysilicon.over.as_slice(),
        first,
        count,
        numbers,
    )?;
    let diffusion = nodes_over(alloc, cut.diffusion.over.as_slice(), first, count, numbers)?;
    Ok(Columns {
        metal,
        polysilicon,
        diffusion,
    })
}

// For some places from the first on the node of the piece that is over each.
fn nodes_over(
    alloc: Global,
    over: &[Option<u32>],
    first: usize,
    count: usize,
    numbers: &[u32],
) -> Result<List<Option<u32>>, NoMemory>
    requires long { first + count ≤ length over.now }
    requires inside { All (λ o. ForSome o (λ k. k < length numbers.now)) over.now }
    ensures { IfOk result (λ v. v ≡ map (option_map (λ k. get_or numbers.now k 0)) (take count (drop first over.now))) }
{
    let mut nodes = List::new(alloc);
    for piece in &over[first..first + count] {
        let node = match piece {
            Some(k) => Some(numbers[*k as usize]),
            None => None,
        };
        nodes.push(node)?;
    }
    Ok(nodes)
}
