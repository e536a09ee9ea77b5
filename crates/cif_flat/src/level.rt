//! Lists of commands that are being walked.

ghost use Rattle.std.specs.Prelude.{◌≡◌, ◌↔◌, ◌+◌, ◌<◌, IsTrue, Some};
ghost use Rattle.cif_flat.specs.Walking.{top};

use crate::symbol::Naming;
use cif_place::{Placement, Ratio};
use lam_geom::Layer;

/// A list of commands that is being walked: the body of a symbol, or the top level, which has no symbol. `named` is
/// where the name of the symbol stands, if it has one, and `way` the number of the way that the names of labels begin
/// with here, if they have one. Its commands from `next` on and before `end` are left.
#[derive(Clone, Copy, Drop)]
pub(crate) struct Level {
    pub symbol: Option<u64>,
    pub named: Option<Naming>,
    pub way: Option<usize>,
    pub ratio: Ratio,
    pub layer: Option<Layer>,
    pub placement: Placement,
    pub next: usize,
    pub end: usize,
}

impl Level {
    /// The top level of a file with so many commands.
    pub(crate) fn top(size: usize) -> Level
        ensures { result ≡ top size }
    {
        Level {
            symbol: None,
            named: None,
            way: Some(0),
            ratio: Ratio::unit(),
            layer: None,
            placement: Placement::here(),
            next: 0,
            end: size,
        }
    }

    /// Behind its next command, with a layer set or none.
    pub(crate) fn onward(self, layer: Option<Layer>) -> Level
        requires { self.next < self.end }
        ensures { result ≡ record self { layer = layer; next = self.next + 1 } }
    {
        Level {
            symbol: self.symbol,
            named: self.named,
            way: self.way,
            ratio: self.ratio,
            layer,
            placement: self.placement,
            next: self.next + 1,
            end: self.end,
        }
    }

    /// Whether it is the body of a definition of this number.
    pub(crate) fn is_of(self, number: u64) -> bool
        ensures { IsTrue result ↔ (self.symbol ≡ Some number) }
    {
        match self.symbol {
            Some(symbol) => symbol == number,
            None => false,
        }
    }

    /// At a later command.
    pub(crate) fn resumed(self, next: usize) -> Level
        ensures { result ≡ record self { next = next } }
    {
        Level {
            symbol: self.symbol,
            named: self.named,
            way: self.way,
            ratio: self.ratio,
            layer: self.layer,
            placement: self.placement,
            next,
            end: self.end,
        }
    }
}
