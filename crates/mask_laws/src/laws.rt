//! Laws of masks, for the proofs of crates above. A call of one does nothing.

ghost use Rattle.mask_laws.specs.Laws.{NumberingExists, NetworkExists, MaskIsJudged, CircuitIsJudged};
ghost use Rattle.mask_laws.specs.Laws.{NetworkBySquares, FirstBySquares, SoundBySquares};

use switch_net::laws::network_is_determined;

/// The conductors and the channel squares of finitely many rectangles have a numbering.
pub fn masks_are_numbered()
    ensures { NumberingExists }
{}

/// A mask whose labels name conductors, those of one name on one node, draws a network.
pub fn masks_draw_networks()
    ensures { NetworkExists }
{}

/// A mask with labels draws a network and breaks no rule, or one rule is the first that it breaks; and so does a
/// network with pads.
pub fn masks_are_judged()
    ensures mask { MaskIsJudged }
    ensures circuit { CircuitIsJudged }
{
    network_is_determined();
}

/// What a mask draws and breaks is told by the squares that it covers, in whatever rectangles.
pub fn squares_tell_masks()
    ensures network { NetworkBySquares }
    ensures first { FirstBySquares }
    ensures sound { SoundBySquares }
{}
