//! Whether the product of two registers fits.
ghost use Rattle.std.specs.Prelude.{◌≡◌, ◌+◌, ◌++◌, ◌≤ℤ◌, pos, nat_abs, length};
ghost use Rattle.state_model.specs.StateVector.{IsSize};
ghost use Rattle.register_merge.specs.Merging.{AreApart, IsVerdict, merged};

use amplitude_register::Register;
use state_model::SIZE_LIMIT;

/// What the product of two registers would be.
#[derive(Clone, Copy, PartialEq, Eq, Debug, Drop)]
pub enum Merge {
    /// Within the limit of qubits, and of a size below 2^60.
    Fits,
    /// Of more qubits than the limit: of how many.
    TooMany { qubits: u8 },
    /// Within the limit of qubits, and of a least size of 2^60 or more: of which.
    TooLarge { size: i128 },
}

/// Tells whether the product of two registers with one limit and no common qubit fits.
pub fn verdict(one: &Register, two: &Register) -> Merge
    requires apart { AreApart one.now.value two.now.value }
    requires limits { one.now.limit ≡ two.now.limit }
    ensures { IsVerdict result one.now two.now }
{
    let qubits = qubit_sum(one, two);
    if one.limit() < qubits {
        return Merge::TooMany { qubits };
    }
    let size = product_size(one, two);
    if size < SIZE_LIMIT {
        Merge::Fits
    } else {
        Merge::TooLarge { size }
    }
}

/// The number of the qubits of both.
fn qubit_sum(one: &Register, two: &Register) -> u8
    ensures { result ≡ length one.now.value.qubits + length two.now.value.qubits }
{
    one.facts();
    two.facts();
    (one.qubits().len() + two.qubits().len()) as u8
}

/// The size of the product.
fn product_size(one: &Register, two: &Register) -> i128
    requires { AreApart one.now.value two.now.value }
    ensures least { IsSize (merged one.now.value two.now.value) (one.now.value.qubits ++ two.now.value.qubits) (nat_abs result) }
    ensures sign { pos 0 ≤ℤ result }
{
    one.facts();
    two.facts();
    one.weight().times(two.weight()).balance().weight.x
}
