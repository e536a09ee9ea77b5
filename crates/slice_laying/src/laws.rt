//! Laws: a call of one does nothing, and tells the caller's proof what it ensures.

ghost use Rattle.slice_form.specs.Whole.{StubsArePads, WholesAreNarrow, WholesHaveNets};
ghost use Rattle.slice_laying.specs.Fitting.{SlicesFit};
ghost use Rattle.slice_laying.specs.Paths.{PathsArePlaceable};

/// The nets of a data path are those of the path as it is placed.
pub fn wholes_have_nets()
    ensures { WholesHaveNets }
{}

/// A data path can be placed: its numbers are in range, each input of a slice is joined once, and pads are joined to
/// nothing.
pub fn paths_are_placeable()
    ensures { PathsArePlaceable }
{}

/// An input with a column of its own that has nothing but its line is a pad's bit.
pub fn stubs_are_pads()
    ensures { StubsArePads }
{}

/// A data path that is narrow wants few columns.
pub fn wholes_are_narrow()
    ensures { WholesAreNarrow }
{}

/// The slices of a path, with the lines that join them, may be added to a fabric that has room for them.
pub fn slices_fit()
    ensures { SlicesFit }
{}
