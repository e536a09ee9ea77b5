//! Scales.

ghost use Rattle.std.specs.Prelude.{◌≡◌, ◌≢◌, ◌↔◌, ◌^◌, ℤ, ◌+ℤ◌, ◌-ℤ◌, ◌*ℤ◌, ◌<ℤ◌, pos, IsTrue, IfSome, IfNone};
ghost use Rattle.cif_form.specs.Place.{IsScale, IsScaled};
ghost use Rattle.cif_place.specs.Placing.{IsWithin, IsShort, IsFitRatio, scale_of};

/// The scale a/b of a definition.
#[derive(Clone, Copy, Drop)]
pub struct Ratio {
    pub a: i64,
    pub b: i64,
}

fn product(a: i64, distance: i64) -> i128
    requires a { IsShort a }
    requires distance { IsWithin (2 ^ 33) distance }
    ensures { result ≡ a *ℤ distance }
{
    i128::from(a) * i128::from(distance)
}

/// The quotient where nothing remains.
fn quotient(product: i128, divisor: i64) -> Option<i128>
    requires above { pos 0 <ℤ divisor }
    requires product { IsWithin (2 ^ 64) product }
    ensures whole { IfSome result (λ z. divisor *ℤ z ≡ product) }
    ensures small { IfSome result (IsWithin (2 ^ 64)) }
    ensures uneven { IfNone result ((z : ℤ) → divisor *ℤ z ≢ product) }
{
    let divisor = i128::from(divisor);
    if product % divisor == 0 {
        Some(product / divisor)
    } else {
        None
    }
}

impl Ratio {
    /// The scale 1/1, that of the top level.
    pub fn unit() -> Ratio
        ensures { result ≡ record { a = pos 1; b = pos 1 } }
    {
        Ratio { a: 1, b: 1 }
    }

    /// The scale of the numbers of a definition.
    pub fn of(a: &i64, b: &i64) -> Ratio
        ensures { result ≡ record { a = a.now; b = b.now } }
    {
        Ratio { a: *a, b: *b }
    }

    /// Whether it has no 0 or less in it.
    pub fn is_scale(self) -> bool
        ensures { IsTrue result ↔ IsScale (scale_of self) }
    {
        if self.a <= 0 {
            return false;
        }
        self.b > 0
    }

    /// Whether it has the same two numbers.
    pub fn is_same(self, other: Ratio) -> bool
        ensures { IsTrue result ↔ (self ≡ other) }
    {
        if self.a != other.a {
            return false;
        }
        self.b == other.b
    }

    /// A distance scaled, or nothing where it isn't whole.
    pub(crate) fn scaled(self, distance: i64) -> Option<i128>
        requires fit { IsFitRatio self }
        requires short { IsWithin (2 ^ 33) distance }
        ensures whole { IfSome result (λ z. IsScaled (scale_of self) distance z) }
        ensures small { IfSome result (IsWithin (2 ^ 64)) }
        ensures uneven { IfNone result ((z : ℤ) → ¬ IsScaled (scale_of self) distance z) }
    {
        quotient(product(self.a, distance), self.b)
    }

    /// So many units, in half-units, scaled, or nothing where that isn't whole.
    pub(crate) fn scaled_twice(self, units: i64) -> Option<i128>
        requires fit { IsFitRatio self }
        requires short { IsShort units }
        ensures whole { IfSome result (λ z. IsScaled (scale_of self) (pos 2 *ℤ units) z) }
        ensures small { IfSome result (IsWithin (2 ^ 64)) }
        ensures uneven { IfNone result ((z : ℤ) → ¬ IsScaled (scale_of self) (pos 2 *ℤ units) z) }
    {
        self.scaled(twice_more(units, 0))
    }
}

/// Twice a number, and another taken from it.
pub(crate) fn twice_less(z: i64, less: i64) -> i64
    requires z { IsShort z }
    requires less { IsShort less }
    ensures value { result ≡ pos 2 *ℤ z -ℤ less }
    ensures small { IsWithin (2 ^ 33) result }
{
    2 * z - less
}

/// Twice a number, and another added to it.
pub(crate) fn twice_more(z: i64, more: i64) -> i64
    requires z { IsShort z }
    requires more { IsShort more }
    ensures value { result ≡ pos 2 *ℤ z +ℤ more }
    ensures small { IsWithin (2 ^ 33) result }
{
    2 * z + more
}
