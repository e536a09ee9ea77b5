//! Laws of reduced paths: a call of one does nothing, and tells the caller's proof what it ensures.

ghost use Rattle.path_reduce.specs.Images.{ReductionsReduce};
ghost use Rattle.path_reduce.specs.Reducing.{ReducedShows};

/// A path that another one is reduced to shows what that one shows.
pub fn reduced_paths_show()
    ensures { ReducedShows }
{}

/// What a test tells is enough: kept nets then have the values that their elements give.
pub fn reductions_reduce()
    ensures { ReductionsReduce }
{}
