//! Laws: a call of one does nothing, and tells the caller's proof what it ensures.

ghost use Rattle.slice_joints.specs.Control.{ControlsMatch};

/// The columns that `place` gives the control in its band are those of the closed form of a path.
pub fn controls_match()
    ensures { ControlsMatch }
{}
