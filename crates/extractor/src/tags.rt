//! Labels on nodes, each name on one.

ghost use Rattle.std.specs.Prelude.{◌≡◌, ℕ, List, length, IfOk, IfErr, OnOk};
ghost use Rattle.std.specs.Map.{update};
ghost use Rattle.std.specs.Str.{bytes_eq};
ghost use Rattle.mp_base.specs.declared.refusal.Spot.TheVariants.{Offset};
ghost use Rattle.switch_net.specs.Breaks.{broken};
ghost use Rattle.extractor.specs.Tagging.{AreTagged, IsTagged, RefusesFirst, RefusesLabel};
ghost use Rattle.switch_net.specs.Names.{number_of};

use lam_geom::FlatLabel;
use mp_base::{Broken, Family, List, Name, Refusal, Rule, Spot};
use std::alloc::{AllocError, Global};
use std::collections::BTreeMap;
use switch_net::Tag;

/// The refusal of a label by a rule of networks.
pub(crate) fn refused(number: u16, offset: u64) -> Broken
    ensures { result ≡ broken number (Offset offset) }
{
    Broken {
        rule: Rule {
            family: Family::N,
            number,
        },
        spot: Spot::Offset(offset),
    }
}

// The node of a name.
fn number_of(seen: &BTreeMap<&[u8], u32>, name: &[u8]) -> Option<u32>
    ensures { result ≡ number_of seen.now name.now }
{
    seen.get(name).copied()
}

// Sets the node of a name.
fn note<'a>(seen: &mut BTreeMap<&'a [u8], u32>, name: &'a [u8], node: u32) -> Result<(), AllocError>
    ensures { OnOk result ((q : List ℕ)
        → number_of seen.new q ≡ update bytes_eq (number_of seen.old) name.now (Some node) q) }
{
    seen.insert(name, node)?;
    Ok(())
}

// The tag of a label on this node, or the first of N1 and N2 that it breaks after the names that were seen.
fn tag_of<'a>(
    alloc: Global,
    seen: &mut BTreeMap<&'a [u8], u32>,
    label: &'a FlatLabel,
    node: Option<u32>,
) -> Result<Tag, Refusal>
    ensures tag { IfOk result (IsTagged (number_of seen.old label.now.name) label.now node) }
    ensures seen { OnOk result ((k : ℕ) → node ≡ Some k → (q : List ℕ)
        → number_of seen.new q ≡ update bytes_eq (number_of seen.old) label.now.name (Some k) q) }
    ensures refused { IfErr result (RefusesLabel (number_of seen.old label.now.name) label.now node) }
{
    let Some(node) = node else {
        return Err(Refusal::Broken(refused(2, label.offset)));
    };
    let name = label.name.bytes();
    if let Some(first) = number_of(seen, name) {
        if first != node {
            return Err(Refusal::Broken(refused(1, label.offset)));
        }
    }
    note(seen, name, node)?;
    Ok(Tag {
        offset: label.offset,
        name: Name::from_slice(alloc, name)?,
        node,
    })
}

/// The tags of labels from the nodes that they name, or the first of N1 and N2 that is broken.
pub(crate) fn tags_of(
    alloc: Global,
    labels: &[FlatLabel],
    nodes: &[Option<u32>],
) -> Result<List<Tag>, Refusal>
    requires { length nodes.now ≡ length labels.now }
    ensures tags { IfOk result (AreTagged labels.now nodes.now (length labels.now)) }
    ensures refused { IfErr result (RefusesFirst labels.now nodes.now) }
{
    let mut seen = BTreeMap::new(alloc);
    let mut tags = List::new(alloc);
    for (n, label) in labels.iter().enumerate() {
        let tag = tag_of(alloc, &mut seen, label, nodes[n])?;
        tags.push(tag)?;
    }
    Ok(tags)
}
