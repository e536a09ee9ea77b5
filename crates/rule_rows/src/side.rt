//! Directions, and how far to look in one.

ghost use Rattle.std.specs.Prelude.{◌≡◌};
ghost use Rattle.lam_geom.specs.Rules.{against};
ghost use Rattle.rule_rows.specs.Sides.{way_of};

/// One of the four sides of a square.
#[derive(Clone, Copy)]
pub(crate) enum Side {
    Right,
    Left,
    Above,
    Below,
}

impl Side {
    /// The side across.
    pub(crate) fn opposite(self) -> Side
        ensures { way_of result ≡ against (way_of self) }
    {
        match self {
            Side::Right => Side::Left,
            Side::Left => Side::Right,
            Side::Above => Side::Below,
            Side::Below => Side::Above,
        }
    }
}

/// The squares on one side, from the one `near` away up to the one `far` away.
#[derive(Clone, Copy)]
pub(crate) struct Reach {
    pub side: Side,
    pub near: u32,
    pub far: u32,
}
