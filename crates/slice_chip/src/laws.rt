//! Laws: a call of one does nothing, and tells the caller's proof what it ensures.

ghost use Rattle.slice_chip.specs.Columns.{ColumnsAreUsed};
ghost use Rattle.slice_chip.specs.Drawn.{SlicedChipsDraw};
ghost use Rattle.slice_chip.specs.Ends.{EndsAreMarked};
ghost use Rattle.slice_chip.specs.Groups.{SlicedHasGroups};
ghost use Rattle.slice_chip.specs.Order.{SegmentsInOrder};
ghost use Rattle.slice_chip.specs.Sizes.{RectanglesAreFew, SlicedHasNoUnder, SlicedIsSmall, ThingsAreFew};
ghost use Rattle.slice_chip.specs.Sliced.{ControlsLeaveRoom, TapsFit};
ghost use Rattle.slice_chip.specs.Unders.{UndersFit};

/// Above a control that was placed in an empty fabric there is room for the slices of its path.
pub fn controls_leave_room()
    ensures { ControlsLeaveRoom }
{}

/// The taps in the control's band may be added where control and slices were placed.
pub fn taps_fit()
    ensures { TapsFit }
{}

/// The crossings of pads may be added to a path's fabric.
pub fn unders_fit()
    ensures { UndersFit }
{}

/// The fabric of a data path draws the path: each net, phase and supply has the node of its segment, line or trunk.
pub fn sliced_chips_draw()
    ensures { SlicedChipsDraw }
{}

/// The fabric of a data path within its cost draws few rectangles.
pub fn rectangles_are_few()
    ensures { RectanglesAreFew }
{}

/// The fabric of a data path within its cost has few segments, lines and marks.
pub fn things_are_few()
    ensures { ThingsAreFew }
{}

/// The columns of the fabric of a narrow data path don't grow with the length of words, and each bit adds one band.
pub fn sliced_is_small()
    ensures { SlicedIsSmall }
{}

/// The segments of a path's fabric stand band by band, those of nets in their order and then those of phases.
pub fn segments_in_order()
    ensures { SegmentsInOrder }
{}

/// The last column of each segment of a path's fabric carries a mark on it, and the first one too, unless the segment
/// is led to the west edge.
pub fn ends_are_marked()
    ensures { EndsAreMarked }
{}

/// Where a path has a slice, a line stands in each column of its fabric but the first and the last, which are the
/// trunks of ground and power.
pub fn columns_are_used()
    ensures { ColumnsAreUsed }
{}

/// Nothing of a path's fabric crosses under the trunk of ground.
pub fn sliced_has_no_under()
    ensures { SlicedHasNoUnder }
{}

/// Besides the row of ground each band of a path's fabric has as many rows as segments of it lie over one column.
pub fn sliced_has_groups()
    ensures { SlicedHasGroups }
{}
