//! Laws: a call of one does nothing, and tells the caller's proof what it ensures.

ghost use Rattle.ground_ways.specs.Ways.{OneToGround, PullUpsAreTied, TransistorsAreClocked};

/// Each pull-up joins power to the node of its own gate, and no other channel ends at power.
pub fn pull_ups_are_tied()
    ensures { PullUpsAreTied }
{}

/// Each transistor ends at ground or has a phase as its gate.
pub fn transistors_are_clocked()
    ensures { TransistorsAreClocked }
{}

/// Each path to ground from a pull-up is one transistor, so that the two are sized for each other alone.
pub fn one_to_ground()
    ensures { OneToGround }
{}
