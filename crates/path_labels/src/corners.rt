//! Labels in the corners of nets, and how high the ports of these nets lie.

ghost use Rattle.std.specs.Prelude.{◌≡◌, OnOk};
ghost use Rattle.path_labels.specs.Corners.{with_corner};

use fabric::ChipLabel;
use mp_base::List;
use std::alloc::AllocError;

/// A label in the corner of a net, and the lowest lambda of the net's port, which is where a pad would join it.
#[derive(Drop)]
pub(crate) struct Corner {
    pub label: ChipLabel,
    pub height: u32,
}

/// Labels in the corners of nets, and the heights of the ports of these nets in the same order, in lambda.
#[derive(Drop)]
pub struct Corners {
    pub labels: List<ChipLabel>,
    pub heights: List<u32>,
}

impl Corners {
    // Adds one behind the others.
    pub(crate) fn push(&mut self, corner: Corner) -> Result<(), AllocError>
        ensures { OnOk result (self.new ≡ with_corner self.old corner) }
    {
        self.labels.push(corner.label)?;
        self.heights.push(corner.height)?;
        Ok(())
    }
}
