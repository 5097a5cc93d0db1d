//! Greatest common divisors by Euclid's steps, each of which divides with a rounded quotient.
ghost use Rattle.std.specs.Prelude.{◌≡◌, ◌≢◌, ℕ, map, ◌<◌, ◌*◌, ◌^◌, ◌<ℤ◌, pos, unsigned_abs, IsTrue, ◌↔◌};
ghost use Rattle.state_model.specs.Coefficient.{Coefficient, zero_coefficient, ◌⊗◌, weight};
ghost use Rattle.state_model.specs.Divisors.{Divides, IsBalanced, IsDeltaPower, norm};
ghost use Rattle.state_model.specs.CoefficientList.{at, DividesAll, IsNonzero};
ghost use Rattle.state_model.specs.Quotients.{IsRemainder, IsGreatest};
ghost use Rattle.omega_ring.specs.Views.{omega_value, omega_values, wide_value};
ghost use Rattle.omega_ring.specs.Range.{CoordinatesBelow, CoordinatesUpTo};
ghost use Rattle.omega_ring.specs.Steps.{IsReady, IsNearest, inner, turn_back, numerator};

use crate::arithmetic::{exact, nearest, total_far};
use crate::coefficients::{Omega, Wide};

/// A common divisor of the entries that every common divisor divides, with a balanced weight
/// and coordinates below 2^31. Some entry isn't zero, and each entry's sum of squares is below 2^61.
pub fn gcd_of(list: &[Omega]) -> Omega
    requires some { IsNonzero (omega_values list.now) }
    requires small { (i : ℕ) → (weight (at (omega_values list.now) i)).x <ℤ pos (2 ^ 61) }
    ensures common { DividesAll (omega_value result) (omega_values list.now) }
    ensures greatest { (u : Coefficient) → DividesAll u (omega_values list.now) → Divides u (omega_value result) }
    ensures balanced { IsBalanced (weight (omega_value result)) }
    ensures small { CoordinatesBelow (2 ^ 31) (omega_value result) }
{
    let mut common = Wide {
        a: 0,
        b: 0,
        c: 0,
        d: 0,
    };
    for z in list {
        common = next_common(common, *z);
    }
    common.short()
}

/// A greatest common divisor of one more entry.
fn next_common(common: Wide, z: Omega) -> Wide
    requires ready { IsReady (wide_value common) }
    requires small { (weight (omega_value z)).x <ℤ pos (2 ^ 61) }
    ensures greatest { IsGreatest (wide_value common) (omega_value z) (wide_value result) }
    ensures ready { IsReady (wide_value result) }
{
    z.wide().balanced().gcd(common)
}

impl Omega {
    /// A common divisor of both that every common divisor divides, with a balanced weight and coordinates
    /// below 2^31, to go on with at the next entry of a list. The sum of squares of the other is below 2^61.
    pub fn gcd(self, other: Omega) -> Omega
        requires ready { IsReady (omega_value self) }
        requires small { (weight (omega_value other)).x <ℤ pos (2 ^ 61) }
        ensures greatest { IsGreatest (omega_value self) (omega_value other) (omega_value result) }
        ensures ready { IsReady (omega_value result) }
        ensures coordinates { CoordinatesBelow (2 ^ 31) (omega_value result) }
        ensures small { (weight (omega_value result)).x <ℤ pos (2 ^ 62) }
    {
        next_common(self.wide(), other).short()
    }

    /// Whether the value is a unit times a power of 1 - w, which it is where its norm is a power of 2.
    /// Its sum of squares is below 2^62, as that of each result of `gcd`.
    pub fn is_delta_power(self) -> bool
        requires { (weight (omega_value self)).x <ℤ pos (2 ^ 62) }
        ensures { IsTrue result ↔ IsDeltaPower (omega_value self) }
    {
        self.norm().is_power_of_two()
    }

    /// The absolute norm.
    fn norm(self) -> u128
        requires { (weight (omega_value self)).x <ℤ pos (2 ^ 62) }
        ensures { pos result ≡ norm (omega_value self) }
    {
        self.wide().weight().norm().unsigned_abs()
    }

    /// Whether the value is 0.
    pub fn is_zero(self) -> bool
        ensures { IsTrue result ↔ (omega_value self ≡ zero_coefficient) }
    {
        self.wide().is_zero()
    }

    /// The quotient by u, which divides the value, has a balanced weight, and isn't zero.
    /// All coordinates of the value lie strictly between -2^31 and 2^31.
    pub fn div_exact(self, u: Omega) -> Omega
        requires range { CoordinatesBelow (2 ^ 31) (omega_value self) }
        requires ready { IsReady (omega_value u) }
        requires nonzero { omega_value u ≢ zero_coefficient }
        requires divides { Divides (omega_value u) (omega_value self) }
        ensures { omega_value self ≡ omega_value result ⊗ omega_value u }
    {
        self.wide().quotient(u.wide()).short()
    }
}

impl Wide {
    /// A greatest common divisor.
    fn gcd(self, u: Wide) -> Wide
        requires left { IsReady (wide_value self) }
        requires right { IsReady (wide_value u) }
        ensures greatest { IsGreatest (wide_value self) (wide_value u) (wide_value result) }
        ensures ready { IsReady (wide_value result) }
    {
        if u.is_zero() {
            self
        } else {
            u.gcd(self.remainder(u).balanced())
        }
    }

    fn is_zero(self) -> bool
        ensures { IsTrue result ↔ (wide_value self ≡ zero_coefficient) }
    {
        self.a == 0 && self.b == 0 && self.c == 0 && self.d == 0
    }

    /// What is left of the value after a division by u.
    fn remainder(self, u: Wide) -> Wide
        requires left { IsReady (wide_value self) }
        requires right { IsReady (wide_value u) }
        requires nonzero { wide_value u ≢ zero_coefficient }
        ensures remainder { IsRemainder (wide_value self) (wide_value u) (wide_value result) }
        ensures small { (weight (wide_value result)).x <ℤ pos (2 ^ 64) }
    {
        self.sub(self.quotient(u).mul(u))
    }

    /// The quotient by u with each coordinate rounded.
    fn quotient(self, u: Wide) -> Wide
        requires left { CoordinatesBelow (2 ^ 31) (wide_value self) }
        requires right { IsReady (wide_value u) }
        requires nonzero { wide_value u ≢ zero_coefficient }
        ensures nearest { IsNearest (norm (wide_value u)) (numerator (wide_value self) (wide_value u)) (wide_value result) }
        ensures small { CoordinatesBelow (2 ^ 36) (wide_value result) }
    {
        let w = u.weight();
        let numerator = self.product(u.conj().product(w.conjugate()));
        numerator.rounded(w.norm())
    }

    /// Each coordinate over n, rounded.
    fn rounded(self, n: i128) -> Wide
        requires positive { pos 0 <ℤ n }
        requires small { n <ℤ pos (2 ^ 122) }
        requires size { CoordinatesUpTo (2 ^ 35 * unsigned_abs n) (wide_value self) }
        ensures nearest { IsNearest n (wide_value self) (wide_value result) }
        ensures size { CoordinatesBelow (2 ^ 36) (wide_value result) }
    {
        Wide {
            a: nearest(self.a, n),
            b: nearest(self.b, n),
            c: nearest(self.c, n),
            d: nearest(self.d, n),
        }
    }

    /// The product of small by large coordinates.
    fn product(self, v: Wide) -> Wide
        requires left { CoordinatesBelow (2 ^ 31) (wide_value self) }
        requires right { CoordinatesUpTo (2 ^ 94) (wide_value v) }
        ensures { wide_value result ≡ wide_value self ⊗ wide_value v }
    {
        let one = v.turn();
        let two = one.turn();
        let three = two.turn();
        Wide {
            a: self.dot(v.conj()),
            b: self.dot(one.conj()),
            c: self.dot(two.conj()),
            d: self.dot(three.conj()),
        }
    }

    /// The product with the inverse of w.
    fn turn(self) -> Wide
        requires { CoordinatesUpTo (2 ^ 125) (wide_value self) }
        ensures { wide_value result ≡ turn_back (wide_value self) }
    {
        Wide {
            a: self.b,
            b: self.c,
            c: self.d,
            d: -self.a,
        }
    }

    /// The sum of the products of the coordinates.
    fn dot(self, q: Wide) -> i128
        requires left { CoordinatesBelow (2 ^ 31) (wide_value self) }
        requires right { CoordinatesUpTo (2 ^ 94) (wide_value q) }
        ensures { result ≡ inner (wide_value self) (wide_value q) }
    {
        total_far(
            exact(self.a, q.a),
            exact(self.b, q.b),
            exact(self.c, q.c),
            exact(self.d, q.d),
        )
    }
}
