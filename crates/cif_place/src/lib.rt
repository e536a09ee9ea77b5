//! Where the shapes of CIF are laid: distances scaled, calls turned and moved, boxes, wires and polygons as
//! rectangles.
#![tactic(auto)]

mod edges;
pub mod laws;
mod placement;
mod point;
mod ratio;
mod shape;
mod turned;

pub use edges::{Edges, Extent};
pub use placement::Placement;
pub use point::{are_whole, corner_at, draw_polygon, placed_points};
pub use ratio::Ratio;
pub use shape::{BoxFault, Wired, are_straight, box_edges, draw_wire, segment_count};
pub use turned::Turned;
