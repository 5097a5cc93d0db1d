//! Weights, the squared absolute values of coefficients.
ghost use Rattle.std.specs.Prelude.{◌≡◌, ◌^◌, ◌+ℤ◌, ◌<ℤ◌, neg_ℤ, pos, IsTrue, ◌↔◌};
ghost use Rattle.state_model.specs.Coefficient.{scaled, weight_sum};
ghost use Rattle.state_model.specs.Divisors.{weight_norm, weight_product};
ghost use Rattle.state_model.specs.Quotients.{IsEven};
ghost use Rattle.omega_ring.specs.Views.{wide_value, weight_value};
ghost use Rattle.omega_ring.specs.Range.{PartsBelow};
ghost use Rattle.omega_ring.specs.Steps.{conjugate_weight};

use crate::arithmetic::{exact, half_of_wide, less_twice, plus, plus_twice, times};
use crate::coefficients::Wide;

/// `x + y sqrt(2)`.
#[derive(Clone, Copy, PartialEq, Eq, Debug, Drop)]
pub struct Weight {
    /// The whole part.
    pub x: i128,
    /// The factor of sqrt(2).
    pub y: i128,
}

impl Weight {
    /// `x - y sqrt(2)` as a coefficient.
    pub(crate) fn conjugate(self) -> Wide
        requires { PartsBelow (2 ^ 62) (weight_value self) }
        ensures { wide_value result ≡ conjugate_weight (weight_value self) }
    {
        Wide {
            a: self.x,
            b: -self.y,
            c: 0,
            d: self.y,
        }
    }

    /// `x^2 - 2 y^2`.
    pub(crate) fn norm(self) -> i128
        requires { PartsBelow (2 ^ 62) (weight_value self) }
        ensures { result ≡ weight_norm (weight_value self) }
    {
        less_twice(exact(self.x, self.x), exact(self.y, self.y))
    }

    /// The sum.
    pub fn plus(self, other: Weight) -> Weight
        requires left { PartsBelow (2 ^ 122) (weight_value self) }
        requires right { PartsBelow (2 ^ 122) (weight_value other) }
        ensures { weight_value result ≡ weight_sum (weight_value self) (weight_value other) }
    {
        Weight {
            x: plus(self.x, other.x),
            y: plus(self.y, other.y),
        }
    }

    /// The product.
    pub fn times(self, other: Weight) -> Weight
        requires left { PartsBelow (2 ^ 61) (weight_value self) }
        requires right { PartsBelow (2 ^ 61) (weight_value other) }
        ensures { weight_value result ≡ weight_product (weight_value self) (weight_value other) }
    {
        Weight {
            x: plus_twice(times(self.x, other.x), times(self.y, other.y)),
            y: plus(times(self.x, other.y), times(self.y, other.x)),
        }
    }

    /// Whether 2 y is greater than x.
    pub fn is_high(self) -> bool
        requires { PartsBelow (2 ^ 122) (weight_value self) }
        ensures { IsTrue result ↔ (self.x <ℤ (self.y +ℤ self.y)) }
    {
        self.x < self.y + self.y
    }

    /// Whether 2 y is less than -x.
    pub fn is_low(self) -> bool
        requires { PartsBelow (2 ^ 122) (weight_value self) }
        ensures { IsTrue result ↔ ((self.x +ℤ self.y +ℤ self.y) <ℤ pos 0) }
    {
        self.x + self.y + self.y < 0
    }

    /// The product with the weight of sqrt(2) - 1.
    pub fn lowered(self) -> Weight
        requires { PartsBelow (2 ^ 122) (weight_value self) }
        ensures { weight_value result ≡ weight_product (weight_value self) record { x = pos 3; y = neg_ℤ (pos 2) } }
    {
        Weight {
            x: 3 * self.x - 4 * self.y,
            y: 3 * self.y - 2 * self.x,
        }
    }

    /// The product with the weight of sqrt(2) + 1.
    pub fn raised(self) -> Weight
        requires { PartsBelow (2 ^ 122) (weight_value self) }
        ensures { weight_value result ≡ weight_product (weight_value self) record { x = pos 3; y = pos 2 } }
    {
        Weight {
            x: 3 * self.x + 4 * self.y,
            y: 3 * self.y + 2 * self.x,
        }
    }

    /// Twice the weight.
    pub fn doubled(self) -> Weight
        requires { PartsBelow (2 ^ 122) (weight_value self) }
        ensures { weight_value result ≡ scaled 2 (weight_value self) }
    {
        Weight {
            x: 2 * self.x,
            y: 2 * self.y,
        }
    }

    /// The quotient by the weight of 1 - w^2.
    pub fn over_both(self) -> Weight
        requires small { PartsBelow (2 ^ 122) (weight_value self) }
        requires x { IsEven self.x }
        requires y { IsEven self.y }
        ensures { weight_value self ≡ weight_product (weight_value result) record { x = pos 2; y = pos 0 } }
    {
        Weight {
            x: half_of_wide(self.x),
            y: half_of_wide(self.y),
        }
    }

    /// The quotient by the weight of 1 + w.
    pub fn over_conjugate(self) -> Weight
        requires small { PartsBelow (2 ^ 122) (weight_value self) }
        requires even { IsEven self.x }
        ensures { weight_value self ≡ weight_product (weight_value result) record { x = pos 2; y = pos 1 } }
    {
        Weight {
            x: self.x - self.y,
            y: self.y - half_of_wide(self.x),
        }
    }

    /// The quotient by the weight of 1 - w.
    pub fn over_delta(self) -> Weight
        requires small { PartsBelow (2 ^ 122) (weight_value self) }
        requires even { IsEven self.x }
        ensures { weight_value self ≡ weight_product (weight_value result) record { x = pos 2; y = neg_ℤ (pos 1) } }
    {
        Weight {
            x: self.x + self.y,
            y: self.y + half_of_wide(self.x),
        }
    }
}
