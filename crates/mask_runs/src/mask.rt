//! Layers over a square, and the masks that they make.

ghost use Rattle.std.specs.Prelude.{◌≡◌};
ghost use Rattle.mask_runs.specs.Colours.{bare, has, with, uses, needs, joined, colour_of};

use lam_geom::Layer;

/// Which of the layers cover a square.
#[derive(Clone, Copy, PartialEq, Eq, Debug)]
pub struct Layers {
    pub nd: bool,
    pub np: bool,
    pub nc: bool,
    pub nm: bool,
    pub ni: bool,
    pub nb: bool,
    pub ng: bool,
}

impl Layers {
    /// No layer.
    pub fn none() -> Layers
        ensures { result ≡ bare }
    {
        Layers {
            nd: false,
            np: false,
            nc: false,
            nm: false,
            ni: false,
            nb: false,
            ng: false,
        }
    }

    pub fn has(self, layer: Layer) -> bool
        ensures { result ≡ has self layer }
    {
        match layer {
            Layer::ND => self.nd,
            Layer::NP => self.np,
            Layer::NC => self.nc,
            Layer::NM => self.nm,
            Layer::NI => self.ni,
            Layer::NB => self.nb,
            Layer::NG => self.ng,
        }
    }

    /// This layer besides.
    pub fn with(self, layer: Layer) -> Layers
        ensures { result ≡ with self layer }
    {
        match layer {
            Layer::ND => Layers { nd: true, ..self },
            Layer::NP => Layers { np: true, ..self },
            Layer::NC => Layers { nc: true, ..self },
            Layer::NM => Layers { nm: true, ..self },
            Layer::NI => Layers { ni: true, ..self },
            Layer::NB => Layers { nb: true, ..self },
            Layer::NG => Layers { ng: true, ..self },
        }
    }
}

/// A mask that layers make: it gives each square a colour, of which 0 is none.
///
/// `Only` has colour 1 where its layer is. `Diffusion` has 1 where diffusion conducts, and where it is the channel of a
/// transistor 2 without implant and 3 with it. `Contacts` has the sum of the conductors that are joined there, of which
/// metal counts 1, polysilicon 2 and diffusion 4, where these are two or more (Mead and Conway, chapter 4).
#[derive(Clone, Copy, PartialEq, Eq, Debug)]
pub enum Mask {
    Only(Layer),
    Diffusion,
    Contacts,
}

impl Mask {
    /// The colour of a square with these layers.
    pub fn colour(self, layers: Layers) -> u8
        ensures { result ≡ colour_of self layers }
    {
        let channel = layers.nd && layers.np && !layers.nb;
        match self {
            Mask::Only(layer) => layers.has(layer) as u8,
            Mask::Diffusion if channel => 2 + layers.ni as u8,
            Mask::Diffusion => layers.nd as u8,
            Mask::Contacts => joined(layers, layers.nd && !channel),
        }
    }

    /// Whether a layer has any part in the mask.
    pub fn uses(self, layer: Layer) -> bool
        ensures { result ≡ uses self layer }
    {
        match self {
            Mask::Only(own) => own == layer,
            Mask::Diffusion => matches!(layer, Layer::ND | Layer::NP | Layer::NB | Layer::NI),
            Mask::Contacts => !matches!(layer, Layer::NI | Layer::NG),
        }
    }

    /// Whether the layer is one of those of which each square with a colour has one.
    pub fn needs(self, layer: Layer) -> bool
        ensures { result ≡ needs self layer }
    {
        match self {
            Mask::Only(own) => own == layer,
            Mask::Diffusion => layer == Layer::ND,
            Mask::Contacts => matches!(layer, Layer::NC | Layer::NB),
        }
    }
}

// The sum of the conductors that a contact joins, where diffusion conducts or doesn't.
fn joined(layers: Layers, diffusion: bool) -> u8
    ensures { result ≡ joined layers diffusion }
{
    match (layers.nc, layers.nm, layers.np, diffusion) {
        (true, true, true, true) => 7,
        (true, true, true, false) => 3,
        (true, true, false, true) => 5,
        (_, _, true, true) if layers.nc || layers.nb => 6,
        _ => 0,
    }
}
