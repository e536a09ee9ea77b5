//! Nodes of a tree.

ghost use Rattle.std.specs.Prelude.{ℕ, ◌≡◌, ◌≢◌, ◌≤◌, ◌<◌, true, max, nat_lt};
ghost use Rattle.lam_geom.specs.declared.layer.Layer.{Layer};

use crate::layer_set::LayerSet;
use crate::note::Note;
use lam_geom::Layer;

/// What a part's node says of the part as a whole, now and in the row told last, and the note of what lies over its
/// cells.
#[derive(Clone, Copy, Drop)]
pub(crate) struct Node {
    pub tops: Tops,
    pub told: LayerSet,
    pub note: Note,
}

/// Up to which row each layer covers a part as a whole, of ND, NP, NB, NM and one further layer.
#[derive(Clone, Copy, Drop)]
pub(crate) struct Tops {
    pub nd: u32,
    pub np: u32,
    pub nb: u32,
    pub further: u32,
    pub nm: u32,
}

impl Node {
    ghost use Rattle.cover_tree.specs.Nodes.{blank};

    /// A node that says nothing.
    pub fn blank() -> Node
        ensures { result ≡ blank }
    {
        Node {
            tops: Tops::none(),
            told: LayerSet::none(),
            note: Note::stale(),
        }
    }
}

impl Tops {
    ghost use Rattle.cover_tree.specs.Nodes.{no_tops, keeps, layer_top, layers_of, above};

    /// Those of a part that isn't covered as a whole.
    pub fn none() -> Tops
        ensures { result ≡ no_tops }
    {
        Tops {
            nd: 0,
            np: 0,
            nb: 0,
            further: 0,
            nm: 0,
        }
    }

    /// The set of the layers that cover the part in a row.
    pub fn set(self, row: u32) -> LayerSet
        ensures { (f : Layer) → layers_of f result ≡ above f self row }
    {
        let low = (row < self.nd) as u8 + 2 * (row < self.np) as u8 + 4 * (row < self.nb) as u8;
        LayerSet {
            bits: low + 8 * (row < self.further) as u8 + 16 * (row < self.nm) as u8,
        }
    }

    /// Up to which row these give the same layers as in the row `now`.
    pub fn until(self, now: u32) -> u32
        ensures { (f : Layer) (row : ℕ) → now ≤ row → row < result → above f self row ≡ above f self now }
    {
        next(self.nd, now)
            .min(next(self.np, now))
            .min(next(self.nb, now))
            .min(next(self.further, now))
            .min(next(self.nm, now))
    }

    /// With a layer that covers the part in the rows below `row` besides.
    pub fn lifted(self, layer: Layer, row: u32) -> Tops
        ensures own { (f : Layer) → keeps layer f ≡ true → layer_top layer f result ≡ max (layer_top layer f self) row }
        ensures others { (f l : Layer) → keeps layer f ≡ true → l ≢ layer → layer_top l f result ≡ layer_top l f self }
    {
        match layer {
            Layer::ND => Tops {
                nd: self.nd.max(row),
                ..self
            },
            Layer::NP => Tops {
                np: self.np.max(row),
                ..self
            },
            Layer::NB => Tops {
                nb: self.nb.max(row),
                ..self
            },
            Layer::NM => Tops {
                nm: self.nm.max(row),
                ..self
            },
            Layer::NC | Layer::NI | Layer::NG => Tops {
                further: self.further.max(row),
                ..self
            },
        }
    }
}

// The first row after `now` in which a top doesn't do the same.
fn next(top: u32, now: u32) -> u32
    ensures { (row : ℕ) → now ≤ row → row < result → nat_lt row top ≡ nat_lt now top }
{
    if now < top { top } else { u32::MAX }
}
