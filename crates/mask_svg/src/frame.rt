//! The frame around a drawing.

ghost use Rattle.std.specs.Prelude.{◌≡◌, ◌<◌, ◌≤◌};
ghost use Rattle.mask_svg.specs.Frames.{around, frame_of, grain, height, longer_side, start, unit};
ghost use Rattle.mask_svg.specs.Frames.{picture_height, picture_width, unit_count, width};

use lam_geom::Rect;

/// The sides of a drawing, in half-units.
#[derive(Clone, Copy)]
pub(crate) struct Frame {
    pub left: i64,
    pub bottom: i64,
    pub right: i64,
    pub top: i64,
}

// The first rectangle alone, or the origin where there is none.
fn start(shapes: &[Rect]) -> Frame
    ensures { result ≡ start shapes.now }
{
    match shapes {
        [] => Frame {
            left: 0,
            bottom: 0,
            right: 0,
            top: 0,
        },
        [r, ..] => Frame {
            left: r.x0,
            bottom: r.y0,
            right: r.x1,
            top: r.y1,
        },
    }
}

/// The frame around all rectangles, and the origin where there are none.
pub(crate) fn frame_of(shapes: &[Rect]) -> Frame
    ensures { result ≡ frame_of shapes.now }
{
    let mut frame = start(shapes);
    for r in shapes {
        frame = frame.around(r);
    }
    frame
}

impl Frame {
    fn around(self, r: &Rect) -> Frame
        ensures { result ≡ around self r.now }
    {
        Frame {
            left: self.left.min(r.x0),
            bottom: self.bottom.min(r.y0),
            right: self.right.max(r.x1),
            top: self.top.max(r.y1),
        }
    }

    pub fn width(self) -> u64
        ensures { result ≡ width self }
    {
        self.right.abs_diff(self.left)
    }

    pub fn height(self) -> u64
        ensures { result ≡ height self }
    {
        self.top.abs_diff(self.bottom)
    }

    fn longer_side(self) -> u64
        ensures { result ≡ longer_side self }
    {
        self.width().max(self.height())
    }

    /// What units are counted in: lambda, or half-units where the drawing is less than 40 lambda wide and high.
    pub fn grain(self) -> u64
        ensures value { result ≡ grain self }
        ensures some { 0 < result }
        ensures small { result ≤ 500 }
    {
        if self.longer_side() < 20_000 { 1 } else { 500 }
    }

    /// How many of these a unit of the picture has: its letters are at most a unit high.
    pub fn unit_count(self) -> u64
        ensures value { result ≡ unit_count self }
    {
        self.longer_side() / (40 * self.grain()) + 1
    }

    /// The unit in half-units.
    pub fn unit(self) -> u64
        ensures { result ≡ unit self }
    {
        self.unit_count() * self.grain()
    }

    pub fn picture_width(self) -> u128
        ensures { result ≡ picture_width self }
    {
        let unit = self.unit() as u128;
        (self.width() as u128).max(18 * unit) + 4 * unit
    }

    pub fn picture_height(self) -> u128
        ensures { result ≡ picture_height self }
    {
        self.height() as u128 + 11 * self.unit() as u128
    }
}
