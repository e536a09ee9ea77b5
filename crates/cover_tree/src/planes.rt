//! The colours of all sets of layers at once.

ghost use Rattle.std.specs.Prelude.{◌≡◌, ◌↔◌, ◌<◌, ℕ, if◌then◌else◌};
ghost use Rattle.std.specs.Int.{bit_at};
ghost use Rattle.mask_runs.specs.Colours.{colour_of};
ghost use Rattle.mask_runs.specs.declared.mask.Layers.{Layers};
ghost use Rattle.mask_runs.specs.declared.mask.Mask.{Mask};
ghost use Rattle.mask_runs.specs.declared.mask.Mask.TheVariants.{Only, Diffusion, Contacts};
ghost use Rattle.cover_tree.specs.declared.layer_set.LayerSet.{LayerSet};
ghost use Rattle.cover_tree.specs.Nodes.{layers_of};
ghost use Rattle.cover_tree.specs.Kinds.{further, index, set_colour, union};
ghost use Rattle.cover_tree.specs.Planes.{AreLayersAt, colour_at};

use crate::layer_set::LayerSet;
use lam_geom::Layer;
use mask_runs::Mask;

// For each layer that a mask may use, the sets that have it, as bits at their indexes.
pub(crate) const ND: u32 = 0xAAAA_AAAA;

pub(crate) const NP: u32 = 0xCCCC_CCCC;

pub(crate) const NB: u32 = 0xF0F0_F0F0;

pub(crate) const FURTHER: u32 = 0xFF00_FF00;

pub(crate) const NM: u32 = 0xFFFF_0000;

/// The colours of all sets of layers, digit by digit in binary: each number has a bit for each set, at its index.
#[derive(Clone, Copy)]
pub(crate) struct Planes {
    pub low: u32,
    pub middle: u32,
    pub high: u32,
}

// For each layer that a mask may use, the sets that have it with the known layers besides, as bits at their indexes.
#[derive(Clone, Copy)]
struct Holders {
    nd: u32,
    np: u32,
    nb: u32,
    further: u32,
    nm: u32,
}

impl Planes {
    /// The colours with the layers known besides.
    pub fn new(mask: Mask, known: LayerSet) -> Planes
        ensures { (s : LayerSet) → set_colour mask (union known s) ≡ colour_at result (index s) }
    {
        let holders = Holders::new(known);
        match mask {
            Mask::Only(layer) => holders.only(layer),
            Mask::Diffusion => holders.diffusion(),
            Mask::Contacts => holders.contacts(),
        }
    }

    /// The colour of a set.
    pub fn colour(self, set: LayerSet) -> u8
        ensures { result ≡ colour_at self (index set) }
    {
        let at = set.bits % 32;
        let low = (self.low >> at) % 2;
        let middle = (self.middle >> at) % 2;
        let high = (self.high >> at) % 2;
        low as u8 + 2 * middle as u8 + 4 * high as u8
    }

    /// The sets that have another colour here than there.
    pub fn differing(self, other: Planes) -> u32
        ensures { (i : ℕ) → (bit_at result i ≡ 0) ↔ (colour_at self i ≡ colour_at other i) }
    {
        (self.low ^ other.low) | (self.middle ^ other.middle) | (self.high ^ other.high)
    }
}

impl Holders {
    fn new(known: LayerSet) -> Holders
        ensures { (mask : Mask) (s : LayerSet)
            → AreLayersAt mask result (index s) (layers_of (further mask) (union known s)) }
    {
        Holders {
            nd: known_or(known.has(1), ND),
            np: known_or(known.has(2), NP),
            nb: known_or(known.has(4), NB),
            further: known_or(known.has(8), FURTHER),
            nm: known_or(known.has(16), NM),
        }
    }

    fn only(self, layer: Layer) -> Planes
        ensures { (i : ℕ) (s : Layers) → AreLayersAt (Only layer) self i s
            → colour_of (Only layer) s ≡ colour_at result i }
    {
        let low = match layer {
            Layer::ND => self.nd,
            Layer::NP => self.np,
            Layer::NB => self.nb,
            Layer::NM => self.nm,
            _ => self.further,
        };
        Planes {
            low,
            middle: 0,
            high: 0,
        }
    }

    fn diffusion(self) -> Planes
        ensures { (i : ℕ) (s : Layers) → i < 32 → AreLayersAt Diffusion self i s
            → colour_of Diffusion s ≡ colour_at result i }
    {
        let channel = self.nd & self.np & !self.nb;
        Planes {
            low: (self.nd & !channel) | (channel & self.further),
            middle: channel,
            high: 0,
        }
    }

    fn contacts(self) -> Planes
        ensures { (i : ℕ) (s : Layers) → i < 32 → AreLayersAt Contacts self i s
            → colour_of Contacts s ≡ colour_at result i }
    {
        let diffusion = self.nd & !(self.np & !self.nb);
        let cut = self.further & self.nm;
        let joined = self.np & diffusion & (self.further | self.nb);
        Planes {
            low: cut & (self.np | diffusion),
            middle: (cut & self.np) | joined,
            high: (cut & diffusion) | joined,
        }
    }
}

// All sets where the layer is known, or else those that have it.
fn known_or(known: bool, sets: u32) -> u32
    ensures { (i : ℕ) → i < 32 → bit_at result i ≡ (if known then 1 else bit_at sets i) }
{
    if known { u32::MAX } else { sets }
}
