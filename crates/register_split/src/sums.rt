//! The weights of a register's rows.
ghost use Rattle.std.specs.Prelude.{◌≡◌, ◌<◌, ◌^◌, unsigned_abs, length};
ghost use Rattle.state_model.specs.Measurement.{one_weight, whole_weight};
ghost use Rattle.state_model.specs.Amplitudes.{vector_of, qubit_at};
ghost use Rattle.omega_ring.specs.Views.{weight_value};

use amplitude_register::Register;
use omega_ring::Weight;

/// The weight of the rows with the bit 1, and that of all rows. Their quotient is the probability of a 1.
#[derive(Clone, Copy, PartialEq, Eq, Debug, Drop)]
pub struct Split {
    /// The weight of the rows with the bit 1.
    pub one: Weight,
    /// The weight of all rows.
    pub whole: Weight,
}

/// The weight of the register's rows in which the bit at the place is 1, and of all its rows.
pub fn weights(reg: &Register, place: u8) -> Split
    requires { place < length reg.now.value.qubits }
    ensures one { weight_value result.one ≡ one_weight reg.now.value.qubits (vector_of reg.now.value) (qubit_at reg.now.value place) }
    ensures whole { weight_value result.whole ≡ whole_weight reg.now.value.qubits (vector_of reg.now.value) }
    ensures one_x { unsigned_abs result.one.x < 2 ^ 60 }
    ensures one_y { unsigned_abs result.one.y < 2 ^ 60 }
    ensures whole_x { unsigned_abs result.whole.x < 2 ^ 60 }
    ensures whole_y { unsigned_abs result.whole.y < 2 ^ 60 }
{
    reg.facts();
    Split {
        one: reg.weigh_bit(place, true),
        whole: reg.weight(),
    }
}
