//! The rows of a product.
ghost use Rattle.std.specs.Prelude.{◌≡◌, ◌+◌, ◌*◌, ◌<◌, ◌≤◌, ◌^◌, length, IsTrue, ◌↔◌};
ghost use Rattle.state_model.specs.Coefficient.{one_coefficient, ◌⊗◌};
ghost use Rattle.omega_ring.specs.Views.{omega_value};
ghost use Rattle.omega_ring.specs.Range.{CoordinatesBelow};
ghost use Rattle.register_merge.specs.Merging.{IsWritten};

use amplitude_register::Register;
use omega_ring::Omega;

/// Writes the rows of the product into the draft.
pub(crate) fn write_rows(one: &mut Register, two: &Register)
    requires few { length one.old.value.qubits + length two.now.value.qubits ≤ 12 }
    requires open { IsWritten 0 two.now.value.list one.old one.old }
    ensures { IsWritten (length one.old.value.list * length two.now.value.list) two.now.value.list one.old one.new }
{
    for high in 0..two.row_count() {
        write_block(one, two, high);
    }
}

/// Writes the rows whose high bits are a row of the second register.
fn write_block(one: &mut Register, two: &Register, high: u16)
    requires few { length one.old.value.qubits + length two.now.value.qubits ≤ 12 }
    requires high { high < length two.now.value.list }
    requires open { IsWritten (length one.old.value.list * high) two.now.value.list one.old one.old }
    ensures { IsWritten (length one.old.value.list * (high + 1)) two.now.value.list one.old one.new }
{
    two.facts();
    one.facts();
    let factor = two.coefficient(high);
    let count = one.row_count();
    for low in 0..count {
        let z = product(one.coefficient(low), factor);
        one.put(count * high + low, z);
    }
}

/// The product. The factors of a basis state, 0 and 1, need no multiplication.
fn product(z: Omega, factor: Omega) -> Omega
    requires left { CoordinatesBelow (2 ^ 30) (omega_value z) }
    requires right { CoordinatesBelow (2 ^ 30) (omega_value factor) }
    ensures value { omega_value result ≡ omega_value z ⊗ omega_value factor }
    ensures small { CoordinatesBelow (2 ^ 62) (omega_value result) }
{
    if factor.is_zero() {
        factor
    } else if is_one(factor) {
        z
    } else {
        z.times(factor)
    }
}

/// Whether a coefficient is 1.
fn is_one(z: Omega) -> bool
    ensures { IsTrue result ↔ (omega_value z ≡ one_coefficient) }
{
    z.a == 1 && z.b == 0 && z.c == 0 && z.d == 0
}
