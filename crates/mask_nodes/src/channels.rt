//! The channels of a mask.

ghost use Rattle.std.specs.Prelude.{◌≡◌, length, IfOk, List};
ghost use Rattle.std.specs.List.{AllZip};
ghost use Rattle.std.specs.List.Sorted.{IsNonDecreasingBy};
ghost use Rattle.lam_geom.specs.declared.place.Point.{Point};
ghost use Rattle.lam_geom.specs.declared.rect.Rect.{Rect};
ghost use Rattle.lam_geom.specs.Squares.{covered};
ghost use Rattle.switch_net.specs.Drawn.{IsChannelAt};
ghost use Rattle.union_find.specs.declared.pair.Pair.{Pair};
ghost use Rattle.piece_classes.specs.Classed.{node_squares, channel_squares};
ghost use Rattle.mask_nodes.specs.Ends.{AreListed};
ghost use Rattle.mask_nodes.specs.Drawn.{AreClassedMasks};

use crate::ends::{all_ends, take_ends};
use crate::gates::gates;
use crate::kinds::{kind, mark};
use mask_pieces::{Cut, Masks, Part};
use mask_runs::laws::one_colour;
use mp_base::{List, NoMemory};
use piece_classes::Classed;
use std::alloc::Global;
use switch_net::Channel;
use union_find::Pair;

/// The channels in the order of their first squares. On polysilicon the last places that were asked for are those of
/// the tiles of diffusion.
pub(crate) fn channels(
    alloc: Global,
    masks: &Masks,
    cut: &Cut,
    classes: &Classed,
) -> Result<List<Channel>, NoMemory>
    ghost drawn: { List Rect × List Point }
    requires { AreClassedMasks drawn.0 drawn.1 masks.now cut.now classes.now }
    ensures { IfOk result (AllZip (IsChannelAt (covered drawn.0) (node_squares cut.now.pieces classes.now.nodes))
        (channel_squares cut.now.pieces classes.now.channels)) }
{
    one_colour();
    let pieces = cut.pieces.as_slice();
    let nodes = classes.nodes.numbers.as_slice();
    let numbers = classes.channels.numbers.as_slice();
    let roots = classes.channels.roots.as_slice();
    let over = cut.polysilicon.over.as_slice();
    let first = over.len() - masks.diffusion.tiles.len();
    let gates = gates(alloc, first, over, pieces, nodes, roots)?;
    let touching = masks.diffusion.pairs.as_slice();
    let ends = all_ends(
        alloc,
        touching,
        cut.diffusion.numbers.as_slice(),
        pieces,
        numbers,
        nodes,
    )?;
    let plain = mark(alloc, Part::Plain, roots.len(), pieces, numbers)?;
    let implanted = mark(alloc, Part::Implanted, roots.len(), pieces, numbers)?;
    let channels = list_channels(alloc, gates.as_slice(), &ends, &plain, &implanted)?;
    Ok(channels)
}

// The channels by their gates, all ends in the order of channels, and whether each has parts without and of implant.
fn list_channels(
    alloc: Global,
    gates: &[u32],
    all: &[Pair],
    plain: &[bool],
    implanted: &[bool],
) -> Result<List<Channel>, NoMemory>
    requires sorted { IsNonDecreasingBy (λ (x : Pair). x.a) all.now }
    requires plain { length plain.now ≡ length gates.now }
    requires implanted { length implanted.now ≡ length gates.now }
    ensures { IfOk result (AreListed gates.now all.now plain.now implanted.now (length gates.now)) }
{
    let mut channels = List::new(alloc);
    let mut place = 0;
    for (i, gate) in gates.iter().enumerate() {
        let Ok(number) = u32::try_from(i) else {
            return Err(NoMemory);
        };
        let ends = take_ends(alloc, all, &mut place, number)?;
        let kind = kind(plain[i], implanted[i]);
        channels.push(Channel {
            gate: *gate,
            ends,
            kind,
        })?;
    }
    Ok(channels)
}
