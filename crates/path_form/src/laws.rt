//! Laws of data paths: a call of one does nothing, and tells the caller's proof what it ensures.

ghost use Rattle.path_form.specs.Extending.{SlicesObey};
ghost use Rattle.path_form.specs.Flat.{FlatFollows, FlatShows};
ghost use Rattle.path_form.specs.Laws.{CastsJoin, ControlObeys, LiftsJoin, PathsRun, ProgramsGive};

/// A path has a trace from any values, whatever is given.
pub fn paths_run()
    ensures { PathsRun }
{}

/// In every solution the control obeys, and what is joined has one value.
pub fn paths_are_joined()
    ensures control { ControlObeys }
    ensures lifts { LiftsJoin }
    ensures casts { CastsJoin }
    ensures programs { ProgramsGive }
{}

/// What slices compute they compute in every path that they grew into.
pub fn slices_keep_their_values()
    ensures { SlicesObey }
{}

/// A flat net has the values of its path, under the numbers of its nets, and shows what its path shows.
pub fn flat_nets_follow()
    ensures follows { FlatFollows }
    ensures shows { FlatShows }
{}
