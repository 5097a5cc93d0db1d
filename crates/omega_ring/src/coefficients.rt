//! Coefficients in 64 and in 128 bits, and the operations of their ring.
ghost use Rattle.std.specs.Prelude.{◌≡◌, ◌<◌, ◌^◌, IsSome, IfSome, ◌↔◌};
ghost use Rattle.state_model.specs.Coefficient.{◌⊕◌, ◌⊖◌, ◌⊗◌, conjugate, weight};
ghost use Rattle.omega_ring.specs.Views.{omega_value, wide_value, weight_value};
ghost use Rattle.omega_ring.specs.Range.{CoordinatesBelow, CoordinatesUpTo, FitsOmega};

use crate::arithmetic::{minus, narrowed, short_minus, short_times, short_total, times, total};
use crate::weights::Weight;

/// `a + b w + c w^2 + d w^3`, where w is the eighth root of unity and `w^4 = -1`.
#[derive(Clone, Copy, PartialEq, Eq, Debug, Drop)]
pub struct Omega {
    /// The coordinate at 1.
    pub a: i64,
    /// The coordinate at w.
    pub b: i64,
    /// The coordinate at w^2, the imaginary unit.
    pub c: i64,
    /// The coordinate at w^3.
    pub d: i64,
}

/// `a + b w + c w^2 + d w^3` with wider coordinates.
#[derive(Clone, Copy, PartialEq, Eq, Debug, Drop)]
pub struct Wide {
    /// The coordinate at 1.
    pub a: i128,
    /// The coordinate at w.
    pub b: i128,
    /// The coordinate at w^2, the imaginary unit.
    pub c: i128,
    /// The coordinate at w^3.
    pub d: i128,
}

/// The coefficient `a + b w + c w^2 + d w^3`.
#[macro_export]
macro_rules! coefficient {
    ($a:expr, $b:expr, $c:expr, $d:expr) => {
        $crate::Omega { a: $a, b: $b, c: $c, d: $d }
    };
}

impl Omega {
    /// The same value with wider coordinates.
    pub fn wide(self) -> Wide
        ensures { wide_value result ≡ omega_value self }
    {
        Wide {
            a: self.a as i128,
            b: self.b as i128,
            c: self.c as i128,
            d: self.d as i128,
        }
    }

    /// The sum, coordinate by coordinate.
    #[inline]
    pub fn plus(self, other: Omega) -> Omega
        requires left { CoordinatesBelow (2 ^ 61) (omega_value self) }
        requires right { CoordinatesBelow (2 ^ 61) (omega_value other) }
        ensures { omega_value result ≡ omega_value self ⊕ omega_value other }
    {
        self.wide().add(other.wide()).short()
    }

    /// The difference, coordinate by coordinate.
    #[inline]
    pub fn minus(self, other: Omega) -> Omega
        requires left { CoordinatesBelow (2 ^ 61) (omega_value self) }
        requires right { CoordinatesBelow (2 ^ 61) (omega_value other) }
        ensures { omega_value result ≡ omega_value self ⊖ omega_value other }
    {
        self.wide().sub(other.wide()).short()
    }

    /// The product.
    #[inline]
    pub fn times(self, other: Omega) -> Omega
        requires left { CoordinatesBelow (2 ^ 30) (omega_value self) }
        requires right { CoordinatesBelow (2 ^ 30) (omega_value other) }
        ensures value { omega_value result ≡ omega_value self ⊗ omega_value other }
        ensures small { CoordinatesBelow (2 ^ 62) (omega_value result) }
    {
        self.wide().mul(other.wide()).short()
    }

    /// The squared absolute value, as `Wide::weight` gives it, of small coordinates.
    #[inline]
    pub fn weight(self) -> Weight
        requires { CoordinatesBelow (2 ^ 30) (omega_value self) }
        ensures { weight_value result ≡ weight (omega_value self) }
    {
        Weight {
            x: self.squares() as i128,
            y: self.neighbours() as i128,
        }
    }

    /// `a^2 + b^2 + c^2 + d^2`.
    fn squares(self) -> i64
        requires { CoordinatesBelow (2 ^ 30) (omega_value self) }
        ensures { result ≡ (weight (omega_value self)).x }
    {
        let Omega { a, b, c, d } = self;
        short_total(
            short_times(a, a),
            short_times(b, b),
            short_times(c, c),
            short_times(d, d),
        )
    }

    /// `ab + bc + cd - da`.
    fn neighbours(self) -> i64
        requires { CoordinatesBelow (2 ^ 30) (omega_value self) }
        ensures { result ≡ (weight (omega_value self)).y }
    {
        let Omega { a, b, c, d } = self;
        short_total(
            short_times(a, b),
            short_times(b, c),
            short_times(c, d),
            short_minus(d, a),
        )
    }
}

impl Wide {
    /// The same value in 64 bits; None exactly where a coordinate doesn't fit an i64.
    pub fn narrow(self) -> Option<Omega>
        ensures fits { IsSome result ↔ FitsOmega (wide_value self) }
        ensures same { IfSome result (λ z. omega_value z ≡ wide_value self) }
    {
        let a = narrowed(self.a)?;
        let b = narrowed(self.b)?;
        let c = narrowed(self.c)?;
        let d = narrowed(self.d)?;
        Some(Omega { a, b, c, d })
    }

    /// The same value in 64 bits, where it fits.
    pub(crate) fn short(self) -> Omega
        requires { CoordinatesBelow (2 ^ 63) (wide_value self) }
        ensures { omega_value result ≡ wide_value self }
    {
        Omega {
            a: self.a as i64,
            b: self.b as i64,
            c: self.c as i64,
            d: self.d as i64,
        }
    }

    /// The sum, coordinate by coordinate.
    pub fn add(self, other: Wide) -> Wide
        requires left { CoordinatesUpTo (2 ^ 125) (wide_value self) }
        requires right { CoordinatesUpTo (2 ^ 125) (wide_value other) }
        ensures { wide_value result ≡ wide_value self ⊕ wide_value other }
    {
        Wide {
            a: self.a + other.a,
            b: self.b + other.b,
            c: self.c + other.c,
            d: self.d + other.d,
        }
    }

    /// The difference, coordinate by coordinate.
    pub fn sub(self, other: Wide) -> Wide
        requires left { CoordinatesUpTo (2 ^ 125) (wide_value self) }
        requires right { CoordinatesUpTo (2 ^ 125) (wide_value other) }
        ensures { wide_value result ≡ wide_value self ⊖ wide_value other }
    {
        Wide {
            a: self.a - other.a,
            b: self.b - other.b,
            c: self.c - other.c,
            d: self.d - other.d,
        }
    }

    /// The complex conjugate, `(a, -d, -c, -b)`.
    pub fn conj(self) -> Wide
        requires { CoordinatesUpTo (2 ^ 125) (wide_value self) }
        ensures { wide_value result ≡ conjugate (wide_value self) }
    {
        Wide {
            a: self.a,
            b: -self.d,
            c: -self.c,
            d: -self.b,
        }
    }

    /// The product, by `w^4 = -1`.
    pub fn mul(self, other: Wide) -> Wide
        requires left { CoordinatesBelow (2 ^ 61) (wide_value self) }
        requires right { CoordinatesBelow (2 ^ 61) (wide_value other) }
        ensures { wide_value result ≡ wide_value self ⊗ wide_value other }
    {
        let Wide { a, b, c, d } = self;
        let Wide {
            a: e,
            b: f,
            c: g,
            d: h,
        } = other;
        Wide {
            a: total(times(a, e), minus(b, h), minus(c, g), minus(d, f)),
            b: total(times(a, f), times(b, e), minus(c, h), minus(d, g)),
            c: total(times(a, g), times(b, f), times(c, e), minus(d, h)),
            d: total(times(a, h), times(b, g), times(c, f), times(d, e)),
        }
    }

    /// The squared absolute value, `a^2 + b^2 + c^2 + d^2 + (ab + bc + cd - da) sqrt(2)`.
    pub fn weight(self) -> Weight
        requires { CoordinatesBelow (2 ^ 61) (wide_value self) }
        ensures { weight_value result ≡ weight (wide_value self) }
    {
        let Wide { a, b, c, d } = self;
        Weight {
            x: total(times(a, a), times(b, b), times(c, c), times(d, d)),
            y: total(times(a, b), times(b, c), times(c, d), minus(d, a)),
        }
    }
}
