//! The sign of a weight, without roots.
ghost use Rattle.std.specs.Prelude.{◌≡◌, ◌<◌, ◌*◌, ◌^◌, unsigned_abs, IsTrue, IsFalse, ◌↔◌};
ghost use Rattle.state_model.specs.Coefficient.{is_positive, is_less, no_weight};
ghost use Rattle.omega_ring.specs.Views.{weight_value};
ghost use Rattle.omega_ring.specs.declared.signs.Sign.TheVariants.{Negative, Zero, Positive};

use crate::weights::Weight;

/// Whether a real number is below 0, 0 or above 0.
#[derive(Clone, Copy, PartialEq, Eq, Debug, Drop)]
pub enum Sign {
    /// Below 0.
    Negative,
    /// 0.
    Zero,
    /// Above 0.
    Positive,
}

impl Weight {
    /// The sign of the real number. Both x and y lie strictly between -2^126 and 2^126.
    pub fn sign(self) -> Sign
        requires x { unsigned_abs self.x < 2 ^ 126 }
        requires y { unsigned_abs self.y < 2 ^ 126 }
        ensures positive { (result ≡ Positive) ↔ IsTrue (is_positive (weight_value self)) }
        ensures negative { (result ≡ Negative) ↔ IsTrue (is_less (weight_value self) no_weight) }
        ensures zero { (result ≡ Zero) ↔ (weight_value self ≡ no_weight) }
    {
        if self.x == 0 && self.y == 0 {
            Sign::Zero
        } else if self.is_above_zero() {
            Sign::Positive
        } else {
            Sign::Negative
        }
    }

    fn is_above_zero(self) -> bool
        requires x { unsigned_abs self.x < 2 ^ 126 }
        requires y { unsigned_abs self.y < 2 ^ 126 }
        ensures { result ≡ is_positive (weight_value self) }
    {
        if self.y == 0 {
            self.x > 0
        } else if (self.x >= 0) == (self.y > 0) {
            self.y > 0
        } else {
            exceeds(self.x.unsigned_abs(), self.y.unsigned_abs()) == (self.x >= 0)
        }
    }
}

/// Whether a is greater than b sqrt(2). Where a lies between b and 2 b, the sign of `a - b sqrt(2)`
/// is the opposite of that of `(2 b - a) - (a - b) sqrt(2)`.
fn exceeds(a: u128, b: u128) -> bool
    requires nonzero { 0 < b }
    requires first { a < 2 ^ 126 }
    requires second { b < 2 ^ 126 }
    ensures above { IsTrue result → 2 * (b * b) < a * a }
    ensures below { IsFalse result → a * a < 2 * (b * b) }
{
    if a <= b {
        false
    } else if a >= 2 * b {
        true
    } else {
        !exceeds(2 * b - a, a - b)
    }
}
