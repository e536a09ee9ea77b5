//! Laws of data paths that stand for transfers: a call of one does nothing, and tells the caller's proof what it
//! ensures.

ghost use Rattle.path_values.specs.Allocated.{AllocatedRealizes};
ghost use Rattle.path_values.specs.Realizing.{RealizedShows};

/// A path that stands for transfers computes them in every solution.
pub fn allocated_paths_realize()
    ensures { AllocatedRealizes }
{}

/// A path that computes transfers in every solution shows them, from any values.
pub fn realized_paths_show()
    ensures { RealizedShows }
{}
