//! Laws: a call of one does nothing, and tells the caller's proof what it ensures.

ghost use Rattle.path_chips.specs.Planned.{PathsArePlanned};
ghost use Rattle.path_chips.specs.Ratioed.{PathsAreRatioed};

use chip_laws::laws::{
    circuits_have_pads, networks_draw_circuits, paths_are_fed, paths_show_rows, rows_follow,
};
use ground_ways::laws::{one_to_ground, pull_ups_are_tied, transistors_are_clocked};

/// From a path that shows the transfers to a chip that is planned: its rectangles draw the path, its labels stand on
/// the bits of the path's pads.
pub fn paths_are_planned()
    ensures { PathsArePlanned }
{
    networks_draw_circuits();
    paths_are_fed();
    rows_follow();
    paths_show_rows();
    circuits_have_pads();
}

/// In a network that is extracted from what a path's switches draw, each pull-up joins power to the node of its own
/// gate and has one transistor between it and ground, nothing else ends at power, each transistor ends at ground or has
/// a phase as its gate, and no channel has implant in a part of it.
pub fn paths_are_ratioed()
    ensures { PathsAreRatioed }
{
    networks_draw_circuits();
    paths_are_fed();
    one_to_ground();
    pull_ups_are_tied();
    transistors_are_clocked();
}
