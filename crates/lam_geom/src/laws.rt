//! Laws of rectangles and of what they cover, for the proofs of crates above. A call of one does nothing.

ghost use Rattle.lam_geom.specs.Squares.{RectanglesAreJoined};
ghost use Rattle.lam_geom.specs.Extent.{ExtentExists, OneExtent, ExtentOfSquares};
ghost use Rattle.lam_geom.specs.Rules.{OneBreach, SameBreaches};

/// Between any two squares of a rectangle a chain of its own squares leads over shared edges.
pub fn rectangles_are_joined()
    ensures { RectanglesAreJoined }
{}

/// A drawing that covers a square has an extent, at most one, and the covered squares alone tell it.
pub fn extents_are_determined()
    ensures exist { ExtentExists }
    ensures once { OneExtent }
    ensures squares { ExtentOfSquares }
{}

/// A drawing has at most one first breach of the lambda rules, and the covered squares alone tell what it breaks.
pub fn breaches_are_determined()
    ensures once { OneBreach }
    ensures squares { SameBreaches }
{}
