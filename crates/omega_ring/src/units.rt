//! Products with the units sqrt(2) + 1 and sqrt(2) - 1.
ghost use Rattle.std.specs.Prelude.{◌≡◌, ◌<◌, ◌^◌, ◌<ℤ◌, pos, IsTrue, IsFalse};
ghost use Rattle.state_model.specs.Coefficient.{◌⊗◌, weight};
ghost use Rattle.state_model.specs.Divisors.{IsBalanced, norm, unit_up, unit_down};
ghost use Rattle.state_model.specs.Quotients.{IsAssociate};
ghost use Rattle.omega_ring.specs.Views.{omega_value, wide_value};
ghost use Rattle.omega_ring.specs.Range.{CoordinatesBelow};

use crate::coefficients::{Omega, Wide};

impl Wide {
    /// The value times `sqrt(2) + 1` where up, else times `sqrt(2) - 1`.
    pub fn times_unit(self, up: bool) -> Wide
        requires { CoordinatesBelow (2 ^ 61) (wide_value self) }
        ensures up { IsTrue up → wide_value result ≡ wide_value self ⊗ unit_up }
        ensures down { IsFalse up → wide_value result ≡ wide_value self ⊗ unit_down }
    {
        if up {
            self.short().times_unit_up().wide()
        } else {
            self.short().times_unit_down().wide()
        }
    }

    /// The value times the unit that balances its weight.
    pub(crate) fn balanced(self) -> Wide
        requires { (weight (wide_value self)).x <ℤ pos (2 ^ 64) }
        ensures balanced { IsBalanced (weight (wide_value result)) }
        ensures associate { IsAssociate (wide_value result) (wide_value self) }
        ensures norm { norm (wide_value result) ≡ norm (wide_value self) }
    {
        let weight = self.weight();
        if weight.is_high() {
            self.times_unit(false).balanced()
        } else if weight.is_low() {
            self.times_unit(true).balanced()
        } else {
            self
        }
    }
}

impl Omega {
    /// The value times `sqrt(2) + 1`.
    pub fn times_unit_up(self) -> Omega
        requires { CoordinatesBelow (2 ^ 61) (omega_value self) }
        ensures { omega_value result ≡ omega_value self ⊗ unit_up }
    {
        Omega {
            a: self.a + self.b - self.d,
            b: self.a + self.b + self.c,
            c: self.b + self.c + self.d,
            d: self.c + self.d - self.a,
        }
    }

    /// The value times `sqrt(2) - 1`.
    pub fn times_unit_down(self) -> Omega
        requires { CoordinatesBelow (2 ^ 61) (omega_value self) }
        ensures { omega_value result ≡ omega_value self ⊗ unit_down }
    {
        Omega {
            a: self.b - self.a - self.d,
            b: self.a - self.b + self.c,
            c: self.b - self.c + self.d,
            d: self.c - self.a - self.d,
        }
    }
}
