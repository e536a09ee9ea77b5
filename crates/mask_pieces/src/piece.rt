//! The pieces that conductors and channels are cut into.

ghost use Rattle.std.specs.Prelude.{◌≡◌, ◌↔◌, IsTrue};
ghost use Rattle.lam_geom.specs.Squares.{rank};
ghost use Rattle.mask_pieces.specs.Pieces.{piece_of, part_of, is_conductor, IsBefore};

use lam_geom::{Layer, Rect};
use mask_tiles::Tile;

/// What a piece is a part of: a conductor, or a channel, where it has no implant or is all implant.
#[derive(Clone, Copy, PartialEq, Eq, Debug)]
pub enum Part {
    Conductor,
    Plain,
    Implanted,
}

impl Part {
    /// The part that the colour of a tile says.
    pub fn of_colour(colour: u8) -> Part
        ensures { result ≡ part_of colour }
    {
        match colour {
            1 => Part::Conductor,
            2 => Part::Plain,
            _ => Part::Implanted,
        }
    }

    pub fn conducts(self) -> bool
        ensures { result ≡ is_conductor self }
    {
        match self {
            Part::Conductor => true,
            Part::Plain | Part::Implanted => false,
        }
    }
}

/// A rectangle of one part, and the number of the tile that it is, among those of its mask. That of a channel is on
/// diffusion.
#[derive(Clone, Copy, PartialEq, Eq, Debug)]
pub struct Piece {
    pub rect: Rect,
    pub tile: u32,
    pub part: Part,
}

impl Piece {
    /// The piece of the tile with this number, on this layer.
    pub fn of_tile(layer: Layer, number: u32, tile: &Tile) -> Piece
        ensures { result ≡ piece_of layer number tile.now }
    {
        let rect = Rect {
            layer,
            x0: tile.x0,
            y0: tile.y0,
            x1: tile.x1,
            y1: tile.y1,
        };
        Piece {
            rect,
            tile: number,
            part: Part::of_colour(tile.colour),
        }
    }

    /// Whether its first square stands before that of the other.
    pub fn is_before(&self, other: &Piece) -> bool
        ensures { IsTrue result ↔ IsBefore self.now other.now }
    {
        let a = &self.rect;
        let b = &other.rect;
        if a.y0 == b.y0 && a.x0 == b.x0 {
            rank(a.layer) < rank(b.layer)
        } else {
            a.y0 < b.y0 || a.y0 == b.y0 && a.x0 < b.x0
        }
    }
}

// Layers in the order in which squares of one place are listed.
fn rank(layer: Layer) -> u8
    ensures { result ≡ rank layer }
{
    match layer {
        Layer::NM => 0,
        Layer::NP => 1,
        Layer::ND => 2,
        Layer::NC => 3,
        Layer::NI => 4,
        Layer::NB => 5,
        Layer::NG => 6,
    }
}
