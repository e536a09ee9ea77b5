//! Sets of sets of layers.

ghost use Rattle.std.specs.Prelude.{◌≡◌, ◌↔◌, ◌<◌, ◌⊎◌, ℕ, IfSome, IfNone};
ghost use Rattle.std.specs.Int.{bit_at};
ghost use Rattle.cover_tree.specs.declared.layer_set.LayerSet.{LayerSet};
ghost use Rattle.cover_tree.specs.Kinds.{further, index, HasKind, IsWith, IsBeside, IsEffect, AreOneColour, Share};
ghost use Rattle.mp_base.specs.Apply.{truth};

use crate::layer_set::LayerSet;
use crate::palette::Palette;
use crate::planes::{FURTHER, NB, ND, NM, NP};
use lam_geom::Layer;
use mask_runs::Mask;

/// Sets of the layers that a mask may use: a bit for each, at the number that the set is.
#[derive(Clone, Copy, Drop)]
pub(crate) struct Kinds {
    pub bits: u32,
}

/// Which of these sets take another colour where other layers lie over them.
#[derive(Clone, Copy)]
pub(crate) enum Effect {
    Nowhere,
    Everywhere,
    Somewhere,
}

impl Kinds {
    /// One set alone.
    pub fn one(set: LayerSet) -> Kinds
        ensures has { HasKind result set }
        ensures only { (s : LayerSet) → HasKind result s → index s ≡ index set }
    {
        Kinds {
            bits: 1 << (set.bits % 32),
        }
    }

    /// The sets of either.
    pub fn union(self, more: Kinds) -> Kinds
        ensures { (s : LayerSet) → HasKind result s ↔ (HasKind self s ⊎ HasKind more s) }
    {
        Kinds {
            bits: self.bits | more.bits,
        }
    }

    /// The sets with these layers besides.
    pub fn with(self, own: LayerSet) -> Kinds
        ensures { (s : LayerSet) → HasKind result s ↔ IsWith self own s }
    {
        if own.bits == 0 {
            return self;
        }
        self.besides(own.has(1), ND, 1)
            .besides(own.has(2), NP, 2)
            .besides(own.has(4), NB, 4)
            .besides(own.has(8), FURTHER, 8)
            .besides(own.has(16), NM, 16)
    }

    /// The one colour of all these sets with the layers known besides, if they have one.
    pub fn colour(self, palette: &Palette, known: LayerSet) -> Option<u8>
        ensures some { IfSome result (λ k. AreOneColour palette.now.mask self known k) }
        ensures none { IfNone result ((k : ℕ) → ¬ AreOneColour palette.now.mask self known k) }
    {
        let planes = palette.with(known);
        let low = self.shared(planes.low)?;
        let middle = self.shared(planes.middle)?;
        let high = self.shared(planes.high)?;
        Some(low as u8 + 2 * middle as u8 + 4 * high as u8)
    }

    /// What becomes of the sets' colours where they lie with the layers `new` in place of `old`.
    pub fn effect(self, palette: &Palette, old: LayerSet, new: LayerSet) -> Effect
        ensures { IsEffect palette.now.mask self old new result }
    {
        let differing = palette.with(old).differing(palette.with(new));
        match self.shared(differing) {
            Some(false) => Effect::Nowhere,
            Some(true) => Effect::Everywhere,
            None => Effect::Somewhere,
        }
    }

    // The sets with a layer besides, if it is to be there. All `holders` have it, and their numbers are larger by
    // `weight` for it.
    fn besides(self, own: bool, holders: u32, weight: u32) -> Kinds
        requires { weight < 32 }
        ensures { (i : ℕ) → i < 32 → (bit_at result.bits i ≡ 1) ↔ IsBeside self own holders weight i }
    {
        if !own {
            return self;
        }
        Kinds {
            bits: (self.bits & holders) | (self.bits & !holders) << weight,
        }
    }

    // The bit that all these sets have in a plane, if it is the same.
    fn shared(self, plane: u32) -> Option<bool>
        ensures some { IfSome result (λ b. Share self plane (truth b)) }
        ensures none { IfNone result ((b : ℕ) → ¬ Share self plane b) }
    {
        let set = self.bits & plane;
        if set == 0 {
            return Some(false);
        }
        if set == self.bits {
            return Some(true);
        }
        None
    }
}

/// The layer that the mask may use besides ND, NP, NB and NM.
pub(crate) fn further(mask: Mask) -> Layer
    ensures { result ≡ further mask }
{
    match mask {
        Mask::Only(Layer::NC) | Mask::Contacts => Layer::NC,
        Mask::Only(Layer::NG) => Layer::NG,
        _ => Layer::NI,
    }
}
