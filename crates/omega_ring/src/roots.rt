//! Products with the powers of w.
ghost use Rattle.std.specs.Prelude.{◌≡◌, ◌<◌, ◌^◌};
ghost use Rattle.state_model.specs.Coefficient.{◌⊗◌, coefficient, negated, root};
ghost use Rattle.omega_ring.specs.Views.{omega_value};
ghost use Rattle.omega_ring.specs.Range.{CoordinatesBelow};

use crate::coefficients::Omega;

impl Omega {
    /// The value times `w^k`, for k from 0 to 7. No coordinate may be the least i64.
    pub fn times_root(self, k: u8) -> Omega
        requires power { k < 8 }
        requires range { CoordinatesBelow (2 ^ 63) (omega_value self) }
        ensures { omega_value result ≡ omega_value self ⊗ root k }
    {
        let Omega { a, b, c, d } = self;
        match k {
            0 => omega(a, b, c, d),
            1 => omega(-d, a, b, c),
            2 => omega(-c, -d, a, b),
            3 => omega(-b, -c, -d, a),
            4 => omega(-a, -b, -c, -d),
            5 => omega(d, -a, -b, -c),
            6 => omega(c, d, -a, -b),
            _ => omega(b, c, d, -a),
        }
    }

    /// The value with the other sign.
    pub fn negated(self) -> Omega
        requires { CoordinatesBelow (2 ^ 63) (omega_value self) }
        ensures { omega_value result ≡ negated (omega_value self) }
    {
        omega(-self.a, -self.b, -self.c, -self.d)
    }
}

/// `a + b w + c w^2 + d w^3`.
fn omega(a: i64, b: i64, c: i64, d: i64) -> Omega
    ensures { omega_value result ≡ coefficient a b c d }
{
    Omega { a, b, c, d }
}
