//! The weight of the rows with one bit.
ghost use Rattle.std.specs.Prelude.{◌≡◌, ◌<◌, ◌^◌, ◌<ℤ◌, pos, length};
ghost use Rattle.state_model.specs.Coefficient.{weight, weight_sum};
ghost use Rattle.omega_ring.specs.Views.{omega_value, weight_value};
ghost use Rattle.omega_ring.specs.Range.{PartsBelow};
ghost use Rattle.amplitude_register.specs.RowWeights.{bit_weight};

use crate::register::Register;
use crate::rows::has_bit;
use omega_ring::{Omega, Weight};

/// The weight of no row.
const NONE: Weight = Weight { x: 0, y: 0 };

impl Register {
    /// The weight of the rows whose bit at the place has the value.
    pub fn weigh_bit(&self, place: u8, bit: bool) -> Weight
        requires { place < length self.now.value.qubits }
        ensures weight { weight_value result ≡ bit_weight place bit self.now.value.list }
        ensures small { PartsBelow (2 ^ 60) (weight_value result) }
    {
        self.facts();
        let mut sum = NONE;
        for row in 0..self.row_count() {
            if has_bit(row as usize, place) == bit {
                sum = added(sum, self.coefficient(row));
            }
        }
        sum
    }
}

/// The sum with a coefficient's weight.
fn added(sum: Weight, z: Omega) -> Weight
    requires sum { PartsBelow (2 ^ 60) (weight_value sum) }
    requires small { (weight (omega_value z)).x <ℤ pos (2 ^ 60) }
    ensures { weight_value result ≡ weight_sum (weight_value sum) (weight (omega_value z)) }
{
    sum.plus(z.weight())
}
