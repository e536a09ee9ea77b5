//! Where the shapes of a definition are laid.

ghost use Rattle.std.specs.Prelude.{◌≡◌, ◌*◌, ◌^◌, ◌+ℤ◌};
ghost use Rattle.lam_geom.specs.declared.layer.Layer.{Layer};
ghost use Rattle.cif_place.specs.Placing.{IsWithin, IsHeld, AreSmall, rect_of, either, flipped, low_end, high_end};
ghost use Rattle.cif_place.specs.Placing.{here, laid, place_of, switched_if, after};

use crate::edges::Edges;

/// A turn with or without a mirroring, and then a move: x and y are exchanged or not, each is negated or not, and then
/// shifted.
#[derive(Clone, Copy, Drop)]
pub struct Placement {
    pub swaps: bool,
    pub flips_x: bool,
    pub flips_y: bool,
    pub dx: i128,
    pub dy: i128,
}

fn either(first: bool, second: bool) -> bool
    ensures { result ≡ either first second }
{
    if first { !second } else { second }
}

fn flip(flips: bool, shift: i128) -> i128
    requires { IsWithin (2 ^ 104) shift }
    ensures value { result ≡ flipped flips shift }
    ensures small { IsWithin (2 ^ 104) result }
{
    if flips { -shift } else { shift }
}

fn low_end(flips: bool, shift: i128, low: i128, high: i128) -> i128
    requires shift { IsWithin (2 ^ 104 * 8_000_000) shift }
    requires low { IsWithin (2 ^ 64) low }
    requires high { IsWithin (2 ^ 64) high }
    ensures { result ≡ low_end flips shift low high }
{
    if flips { shift - high } else { shift + low }
}

fn high_end(flips: bool, shift: i128, low: i128, high: i128) -> i128
    requires shift { IsWithin (2 ^ 104 * 8_000_000) shift }
    requires low { IsWithin (2 ^ 64) low }
    requires high { IsWithin (2 ^ 64) high }
    ensures { result ≡ high_end flips shift low high }
{
    if flips { shift - low } else { shift + high }
}

fn shifted(base: i128, flips: bool, shift: i128) -> i128
    requires base { IsWithin (2 ^ 104 * 8_000_000) base }
    requires shift { IsWithin (2 ^ 104) shift }
    ensures { result ≡ base +ℤ flipped flips shift }
{
    base + flip(flips, shift)
}

impl Placement {
    /// Where a shape is written.
    pub fn here() -> Placement
        ensures { result ≡ here }
    {
        Placement {
            swaps: false,
            flips_x: false,
            flips_y: false,
            dx: 0,
            dy: 0,
        }
    }

    fn switched_if(self, swaps: bool) -> Placement
        requires { IsHeld (2 ^ 104) self }
        ensures value { result ≡ switched_if swaps self }
        ensures held { IsHeld (2 ^ 104) result }
    {
        if swaps {
            Placement {
                swaps: self.swaps,
                flips_x: self.flips_y,
                flips_y: self.flips_x,
                dx: self.dy,
                dy: self.dx,
            }
        } else {
            self
        }
    }

    /// One placement after another, which comes first.
    pub fn after(self, inner: Placement) -> Placement
        requires outer { IsHeld (2 ^ 104 * 8_000_000) self }
        requires inner { IsHeld (2 ^ 104) inner }
        ensures { result ≡ after self inner }
    {
        let first = inner.switched_if(self.swaps);
        Placement {
            swaps: either(self.swaps, inner.swaps),
            flips_x: either(self.flips_x, first.flips_x),
            flips_y: either(self.flips_y, first.flips_y),
            dx: shifted(self.dx, self.flips_x, first.dx),
            dy: shifted(self.dy, self.flips_y, first.dy),
        }
    }

    fn lay(self, turned: Edges) -> Edges
        requires held { IsHeld (2 ^ 104 * 8_000_000) self }
        requires small { AreSmall turned }
        ensures { (l : Layer) → rect_of l result ≡ laid self.flips_x self.flips_y self.dx self.dy (rect_of l turned) }
    {
        Edges {
            left: low_end(self.flips_x, self.dx, turned.left, turned.right),
            bottom: low_end(self.flips_y, self.dy, turned.bottom, turned.top),
            right: high_end(self.flips_x, self.dx, turned.left, turned.right),
            top: high_end(self.flips_y, self.dy, turned.bottom, turned.top),
        }
    }

    /// Edges where they are laid.
    pub fn place(self, edges: Edges) -> Edges
        requires held { IsHeld (2 ^ 104 * 8_000_000) self }
        requires small { AreSmall edges }
        ensures { (l : Layer) → rect_of l result ≡ place_of self (rect_of l edges) }
    {
        self.lay(edges.exchanged_if(self.swaps))
    }
}
