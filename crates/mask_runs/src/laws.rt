//! Laws of masks, for the proofs of crates above.

ghost use Rattle.mask_runs.specs.Laws.{BlankWithoutNeeded, ColoursByLayers, OneColour};

/// The colour of a square rests on the layers alone that the mask uses.
pub fn colours_by_layers()
    ensures { ColoursByLayers }
{}

/// A square has one colour.
pub fn one_colour()
    ensures { OneColour }
{}

/// A square that has none of the layers that the mask needs has no colour.
pub fn blank_without_needed()
    ensures { BlankWithoutNeeded }
{}
