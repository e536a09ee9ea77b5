//! What is found of a mask.

use crate::tile::Tile;
use mp_base::List;
use union_find::Pair;

/// What a sweep finds: the tiles of the mask in the order of their lower left squares, by y and then by x; the numbers
/// of those that share an edge; and for each place in its turn the number of the tile that has its square.
#[derive(Drop)]
pub struct Swept {
    pub tiles: List<Tile>,
    pub pairs: List<Pair>,
    pub found: List<Option<u32>>,
}
