//! Sets of the layers that a mask may use.

/// Which of ND, NP, NB, one further layer and NM: a bit for each, in this order.
#[derive(Clone, Copy, PartialEq, Eq, Drop)]
pub(crate) struct LayerSet {
    pub bits: u8,
}

impl LayerSet {
    ghost use Rattle.std.specs.Prelude.{◌≡◌, ◌<◌};
    ghost use Rattle.cover_tree.specs.Nodes.{no_layers};
    ghost use Rattle.cover_tree.specs.Kinds.{has_bit, union};

    /// No layer.
    pub fn none() -> LayerSet
        ensures { result ≡ no_layers }
    {
        LayerSet { bits: 0 }
    }

    /// The layers of either set.
    pub fn union(self, more: LayerSet) -> LayerSet
        ensures { result ≡ union self more }
    {
        LayerSet {
            bits: self.bits | more.bits,
        }
    }

    /// Whether it has the layer whose bit has this weight.
    pub fn has(self, weight: u8) -> bool
        requires { 0 < weight }
        ensures { result ≡ has_bit self.bits weight }
    {
        self.bits / weight % 2 == 1
    }
}
