//! What all sums and differences of a register's rows may have in common, and the division by it.
ghost use Rattle.std.specs.Prelude.{◌≡◌, ◌^◌};
ghost use Rattle.state_model.specs.Coefficient.{◌⊗◌, weight};
ghost use Rattle.state_model.specs.Divisors.{Divides, weight_product};
ghost use Rattle.omega_ring.specs.Views.{omega_value, weight_value};
ghost use Rattle.omega_ring.specs.Range.{CoordinatesBelow, PartsBelow};
ghost use Rattle.amplitude_register.specs.Mixed.{divisor_value, DividesWeight};
ghost use Rattle.amplitude_register.specs.declared.divisor.Divisor.TheVariants.{Two};

use omega_ring::{Omega, Weight, half_of};

/// A power of 1 - w up to a unit, from the zeroth to the fourth.
#[derive(Clone, Copy, PartialEq, Eq, Debug, Drop)]
pub(crate) enum Divisor {
    /// 1.
    One,
    /// 1 - w.
    Delta,
    /// 1 + w.
    Conjugate,
    /// 1 - w^2.
    Both,
    /// (1 - w^2) (1 - w).
    BothDelta,
    /// (1 - w^2) (1 + w).
    BothConjugate,
    /// 2.
    Two,
}

impl Divisor {
    /// The quotient of a coefficient by it.
    #[inline(always)]
    pub(crate) fn over(self, z: Omega) -> Omega
        requires range { CoordinatesBelow (2 ^ 60) (omega_value z) }
        requires divides { Divides (divisor_value self) (omega_value z) }
        ensures { omega_value z ≡ omega_value result ⊗ divisor_value self }
    {
        match self {
            Divisor::One => z,
            Divisor::Delta => z.over_delta(),
            Divisor::Conjugate => z.over_conjugate(),
            Divisor::Both => z.over_both(),
            Divisor::BothDelta => z.over_both().over_delta(),
            Divisor::BothConjugate => z.over_both().over_conjugate(),
            Divisor::Two => halved(z),
        }
    }

    /// The quotient of a weight by its weight.
    pub(crate) fn weight_over(self, total: Weight) -> Weight
        requires small { PartsBelow (2 ^ 122) (weight_value total) }
        requires divides { DividesWeight (weight (divisor_value self)) (weight_value total) }
        ensures { weight_value total ≡ weight_product (weight_value result) (weight (divisor_value self)) }
    {
        match self {
            Divisor::One => total,
            Divisor::Delta => total.over_delta(),
            Divisor::Conjugate => total.over_conjugate(),
            Divisor::Both => total.over_both(),
            Divisor::BothDelta => total.over_both().over_delta(),
            Divisor::BothConjugate => total.over_both().over_conjugate(),
            Divisor::Two => total.over_both().over_both(),
        }
    }
}

/// Each coordinate's half.
fn halved(z: Omega) -> Omega
    requires range { CoordinatesBelow (2 ^ 60) (omega_value z) }
    requires divides { Divides (divisor_value Two) (omega_value z) }
    ensures { omega_value z ≡ omega_value result ⊗ divisor_value Two }
{
    Omega {
        a: half_of(z.a),
        b: half_of(z.b),
        c: half_of(z.c),
        d: half_of(z.d),
    }
}
