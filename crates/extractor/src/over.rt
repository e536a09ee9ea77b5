//! Which node a label names.

ghost use Rattle.std.specs.Prelude.{◌≡◌, ◌≤◌, length, IfOk};
ghost use Rattle.extractor.specs.Naming.{AreNamed, first_node, named_node, node_on};

use lam_geom::{FlatLabel, Layer};
use mp_base::{List, NoMemory};
use std::alloc::Global;

/// The node of each layer over a place.
#[derive(Clone, Copy, Drop)]
pub(crate) struct Over {
    pub metal: Option<u32>,
    pub polysilicon: Option<u32>,
    pub diffusion: Option<u32>,
}

impl Over {
    fn on(self, layer: Layer) -> Option<u32>
        ensures { result ≡ node_on self layer }
    {
        match layer {
            Layer::NM => self.metal,
            Layer::NP => self.polysilicon,
            Layer::ND => self.diffusion,
            Layer::NC | Layer::NI | Layer::NB | Layer::NG => None,
        }
    }

    fn first(self) -> Option<u32>
        ensures { result ≡ first_node self }
    {
        self.metal.or(self.polysilicon).or(self.diffusion)
    }

    /// The node that a label of this layer names: that of its own layer, or else the first.
    fn named(self, layer: Option<Layer>) -> Option<u32>
        ensures { result ≡ named_node self layer }
    {
        match layer {
            Some(own) => self.on(own).or(self.first()),
            None => self.first(),
        }
    }
}

/// For each label the node that it names, from the nodes of each layer over the labels' places.
pub(crate) fn nodes_named(
    alloc: Global,
    labels: &[FlatLabel],
    metal: &[Option<u32>],
    polysilicon: &[Option<u32>],
    diffusion: &[Option<u32>],
) -> Result<List<Option<u32>>, NoMemory>
    requires metal { length labels.now ≤ length metal.now }
    requires polysilicon { length labels.now ≤ length polysilicon.now }
    requires diffusion { length labels.now ≤ length diffusion.now }
    ensures { IfOk result (AreNamed labels.now metal.now polysilicon.now diffusion.now (length labels.now)) }
{
    let mut nodes = List::new(alloc);
    for (n, label) in labels.iter().enumerate() {
        let over = Over {
            metal: metal[n],
            polysilicon: polysilicon[n],
            diffusion: diffusion[n],
        };
        nodes.push(over.named(label.layer))?;
    }
    Ok(nodes)
}
