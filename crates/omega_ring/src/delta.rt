//! Division by 1 - w, whose fourth power is 2 times a unit, by 1 + w, and by the product of both.
ghost use Rattle.std.specs.Prelude.{◌≡◌, ◌^◌, ◌+ℤ◌, IsTrue, ◌↔◌};
ghost use Rattle.state_model.specs.Coefficient.{◌⊗◌};
ghost use Rattle.state_model.specs.Divisors.{Divides, delta, delta_conjugate, both_deltas};
ghost use Rattle.omega_ring.specs.Views.{omega_value, wide_value};
ghost use Rattle.omega_ring.specs.Range.{CoordinatesBelow};

use crate::arithmetic::{half_of, is_even};
use crate::coefficients::{Omega, Wide};

impl Wide {
    /// Whether `1 - w` divides the value, which it does where the sum of the coordinates is even.
    pub fn delta_divides(self) -> bool
        requires { CoordinatesBelow (2 ^ 61) (wide_value self) }
        ensures { IsTrue result ↔ Divides delta (wide_value self) }
    {
        self.short().delta_divides()
    }

    /// The quotient by `1 - w`.
    pub fn div_delta(self) -> Wide
        requires range { CoordinatesBelow (2 ^ 61) (wide_value self) }
        requires divides { Divides delta (wide_value self) }
        ensures { wide_value self ≡ wide_value result ⊗ delta }
    {
        self.short().over_delta().wide()
    }
}

impl Omega {
    /// Whether `1 - w` divides the value, which it does where the sum of the coordinates is even. So does `1 + w`.
    pub fn delta_divides(self) -> bool
        requires { CoordinatesBelow (2 ^ 61) (omega_value self) }
        ensures { IsTrue result ↔ Divides delta (omega_value self) }
    {
        is_even(self.a + self.b + self.c + self.d)
    }

    /// Whether `1 - w^2` divides the value, which it does where the coordinates in turn agree in parity.
    pub fn both_divide(self) -> bool
        requires { CoordinatesBelow (2 ^ 61) (omega_value self) }
        ensures { IsTrue result ↔ Divides both_deltas (omega_value self) }
    {
        is_even(self.a - self.c) && is_even(self.b - self.d)
    }

    /// The quotient by `1 - w`, which is the value times `(1 + w + w^2 + w^3) / 2`.
    pub fn over_delta(self) -> Omega
        requires range { CoordinatesBelow (2 ^ 61) (omega_value self) }
        requires divides { Divides delta (omega_value self) }
        ensures { omega_value self ≡ omega_value result ⊗ delta }
    {
        let d = self.half_sum();
        let a = self.a - d;
        let b = self.b + a;
        let c = self.c + b;
        Omega { a, b, c, d }
    }

    /// The quotient by `1 + w`, which is the value times `(1 - w + w^2 - w^3) / 2`.
    pub fn over_conjugate(self) -> Omega
        requires range { CoordinatesBelow (2 ^ 61) (omega_value self) }
        requires divides { Divides delta (omega_value self) }
        ensures { omega_value self ≡ omega_value result ⊗ delta_conjugate }
    {
        let half = self.half_sum();
        let a = half - self.c;
        let b = self.b - a;
        let c = self.c - b;
        let d = self.d - c;
        Omega { a, b, c, d }
    }

    /// The quotient by `1 - w^2`, which is the value times `(1 + w^2) / 2`.
    pub fn over_both(self) -> Omega
        requires range { CoordinatesBelow (2 ^ 61) (omega_value self) }
        requires divides { Divides both_deltas (omega_value self) }
        ensures { omega_value self ≡ omega_value result ⊗ both_deltas }
    {
        let a = half_of(self.a - self.c);
        let b = half_of(self.b - self.d);
        Omega {
            a,
            b,
            c: self.a - a,
            d: self.b - b,
        }
    }

    /// Half of the sum of the coordinates.
    fn half_sum(self) -> i64
        requires range { CoordinatesBelow (2 ^ 61) (omega_value self) }
        requires divides { Divides delta (omega_value self) }
        ensures { self.a +ℤ self.b +ℤ self.c +ℤ self.d ≡ result +ℤ result }
    {
        half_of(self.a + self.b + self.c + self.d)
    }
}
