//! What is found.

use lam_geom::Rect;
use mp_base::List;
use region_sweep::Pair;

/// The strips of all layers, and the numbers of those that touch, the lower number first. A run is a longest row of
/// covered squares of one layer, and a strip is the rectangle of equal runs in a longest series of neighbouring rows.
/// Two strips touch where they have a common square, or squares with a common edge, on one layer or on two.
#[derive(Drop)]
pub struct Regions {
    pub strips: List<Rect>,
    pub pairs: List<Pair>,
}
