//! Extraction of the network from a mask.

ghost use Rattle.std.specs.Prelude.{◌≡◌, map, IfOk, IfErr};
ghost use Rattle.mp_base.specs.declared.refusal.Spot.TheVariants.{Nowhere};
ghost use Rattle.mp_base.specs.Refuses.{IsJudged};
ghost use Rattle.switch_net.specs.Breaks.{broken};
ghost use Rattle.extractor.specs.Naming.{point_of};
ghost use Rattle.extractor.specs.Extracted.{IsExtracted, IsLabelled, RefusesMask, OfShapes};

use crate::drivers::first_meeting;
use crate::over::nodes_named;
use crate::tags::{refused, tags_of};
use lam_geom::{FlatLabel, Point, Rect};
use mask_nodes::{Drawing, draw};
use mp_base::{Broken, Family, List, NoMemory, Refusal, Rule, Spot};
use std::alloc::Global;
use switch_net::laws::network_is_determined;
use switch_net::{MOST_NODES_AND_CHANNELS, Network};

// The places of labels.
fn places_of(alloc: Global, labels: &[FlatLabel]) -> Result<List<Point>, NoMemory>
    ensures { IfOk result (λ v. v ≡ map point_of labels.now) }
{
    let mut places = List::new(alloc);
    for label in labels {
        places.push(Point {
            x: label.x,
            y: label.y,
        })?;
    }
    Ok(places)
}

// The refusal of more nodes and channels than a network may have.
fn too_many() -> Broken
    ensures { result ≡ broken 5 Nowhere }
{
    Broken {
        rule: Rule {
            family: Family::N,
            number: 5,
        },
        spot: Spot::Nowhere,
    }
}

// The network with its labels, where each is on one node.
fn labelled(alloc: Global, shapes: &[Rect], labels: &[FlatLabel]) -> Result<Network, Refusal>
    ensures ok { IfOk result (IsLabelled shapes.now labels.now) }
    ensures err { IfErr result (RefusesMask shapes.now labels.now) }
{
    let places = places_of(alloc, labels)?;
    let Drawing {
        nodes,
        channels,
        metal,
        polysilicon,
        diffusion,
    } = draw(alloc, shapes, places.as_slice())?;
    let named = nodes_named(
        alloc,
        labels,
        metal.as_slice(),
        polysilicon.as_slice(),
        diffusion.as_slice(),
    )?;
    let tags = tags_of(alloc, labels, named.as_slice())?;
    // There is no room for 2^32 nodes.
    let Ok(nodes) = u32::try_from(nodes) else {
        return Err(Refusal::NoMemory);
    };
    Ok(Network::checked(nodes, channels, tags).unwrap())
}

/// The network of switches that rectangles with labels draw (Mead and Conway, chapter 4). Nodes and channels are
/// numbered in the order of their least squares, and a label is on the conductor of its own layer at its square, or
/// else on the first of metal, polysilicon and diffusion there.
///
/// Errors: the first rule that is broken. Label by label N1, an earlier label of that name is on another node, and N2,
/// no conductor is there; then N3, a label of power, ground or a phase is on a node of another of these; then N5,
/// nodes and channels together are over 16,777,216. `NoMemory` is want of memory.
pub fn extract(alloc: Global, shapes: &[Rect], labels: &[FlatLabel]) -> Result<Network, Refusal>
    ensures ok { IfOk result (IsExtracted shapes.now labels.now) }
    ensures judged { IsJudged (OfShapes shapes.now labels.now) result }
{
    network_is_determined();
    let net = labelled(alloc, shapes, labels)?;
    if let Some(offset) = first_meeting(alloc, net.tags.as_slice())? {
        return Err(Refusal::Broken(refused(3, offset)));
    }
    let count = net.channels.len().saturating_add(net.nodes as usize);
    if count > MOST_NODES_AND_CHANNELS {
        return Err(Refusal::Broken(too_many()));
    }
    Ok(net)
}
