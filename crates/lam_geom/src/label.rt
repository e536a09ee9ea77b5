//! Labels on squares.

use crate::layer::Layer;
use mp_base::Name;

/// A label of a drawing: a name for the square whose lower left corner is at (x, y) in half-units, on a layer of its
/// own or on any. The offset is that of its command in the file.
#[derive(Drop)]
pub struct FlatLabel {
    pub offset: u64,
    pub name: Name,
    pub x: i64,
    pub y: i64,
    pub layer: Option<Layer>,
}
