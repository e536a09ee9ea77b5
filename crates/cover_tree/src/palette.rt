//! A mask with its colours.

ghost use Rattle.std.specs.Prelude.{◌≡◌};
ghost use Rattle.cover_tree.specs.declared.layer_set.LayerSet.{LayerSet};
ghost use Rattle.cover_tree.specs.Kinds.{index, set_colour, union};
ghost use Rattle.cover_tree.specs.Planes.{colour_at};

use crate::layer_set::LayerSet;
use crate::planes::Planes;
use mask_runs::Mask;

/// A mask with the colours of all sets of the layers that it may use.
#[derive(Clone, Copy)]
pub(crate) struct Palette {
    pub mask: Mask,
    pub planes: Planes,
    ghost colours: { (s : LayerSet) → set_colour mask s ≡ colour_at planes (index s) },
}

impl Palette {
    /// That of a mask.
    pub fn new(mask: Mask) -> Palette
        ensures { result.mask ≡ mask }
    {
        let planes = Planes::new(mask, LayerSet::none());
        Palette { mask, planes }
    }

    /// The colours of all sets with the layers known besides.
    pub fn with(&self, known: LayerSet) -> Planes
        ensures { (s : LayerSet) → set_colour self.now.mask (union known s) ≡ colour_at result (index s) }
    {
        if known.bits == 0 {
            return self.planes;
        }
        Planes::new(self.mask, known)
    }

    /// The colour of a set.
    pub fn colour(&self, set: LayerSet) -> u8
        ensures { result ≡ set_colour self.now.mask set }
    {
        self.planes.colour(set)
    }
}
