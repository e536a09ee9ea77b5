//! How high the names of labels are, and which way they go.

ghost use Rattle.std.specs.Prelude.{◌≡◌, fold, if◌then◌else◌, nat_lt, take};
ghost use Rattle.mask_svg.specs.Heights.{distance, lowered};
ghost use Rattle.mask_svg.specs.declared.height.TheConstants.{COMPARED};
ghost use Rattle.mask_svg.specs.declared.height.Way.TheVariants.{Across, Up};

use lam_geom::FlatLabel;

/// Each label is compared with so many, the first ones of the drawing.
pub(crate) const COMPARED: usize = 256;

/// Which way a name goes.
#[derive(Clone, Copy)]
pub(crate) enum Way {
    Up,
    Across,
}

/// The labels with which each is compared.
pub(crate) fn compared(labels: &[FlatLabel]) -> &[FlatLabel]
    ensures { result.now ≡ take COMPARED labels.now }
{
    &labels[..COMPARED.min(labels.len())]
}

impl Way {
    fn distance(self, label: &FlatLabel, other: &FlatLabel) -> u64
        ensures { result ≡ distance self label.now other.now }
    {
        let aside = label.x.abs_diff(other.x);
        let above = label.y.abs_diff(other.y);
        match self {
            Way::Up => aside.max(above / 4),
            Way::Across => above.max(aside / 4),
        }
    }

    fn lowered(self, label: &FlatLabel, height: u64, other: &FlatLabel) -> u64
        ensures { result ≡ lowered self label.now height other.now }
    {
        match self.distance(label, other) {
            0 => height,
            near => height.min(near),
        }
    }

    /// The height of the name of a label among others: the unit, or less where one of them is nearer.
    pub fn height_among(self, label: &FlatLabel, others: &[FlatLabel], unit: u64) -> u64
        ensures { result ≡ fold (lowered self label.now) unit others.now }
    {
        let mut height = unit;
        for other in others {
            height = self.lowered(label, height, other);
        }
        height
    }
}

/// The way of the name of a label among others: upwards, or across where it is higher so.
pub(crate) fn way_among(label: &FlatLabel, others: &[FlatLabel], unit: u64) -> Way
    ensures { result ≡ (if nat_lt (fold (lowered Up label.now) unit others.now)
        (fold (lowered Across label.now) unit others.now) then Across else Up) }
{
    if Way::Up.height_among(label, others, unit) < Way::Across.height_among(label, others, unit) {
        Way::Across
    } else {
        Way::Up
    }
}
