//! The merge of two registers.
ghost use Rattle.std.specs.Prelude.{◌≡◌, ◌+◌, ◌≤◌, ◌++◌, length, take};
ghost use Rattle.amplitude_register.specs.States.{draft, zeros};
ghost use Rattle.register_merge.specs.Merging.{AreApart, CanMerge, IsMerged};

use crate::rows::write_rows;
use amplitude_register::{Reduce, Register};
use state_model::REGISTER_QUBITS;

/// Prepares the product of two registers that share no qubit: the first's qubits and then the second's, in the
/// state of both. It fits, as `verdict` tells.
pub fn prepare_merge(one: &mut Register, two: &Register)
    requires apart { AreApart one.old.value two.now.value }
    requires limits { one.old.limit ≡ two.now.limit }
    requires fits { CanMerge one.old two.now }
    ensures { IsMerged one.old two.now one.new }
{
    one.facts();
    two.facts();
    let weight = one.weight().times(two.weight());
    begin_product(one, two);
    write_rows(one, two);
    one.weigh(weight);
    let Ok(()) = one.seal(Reduce::Delta) else {
        unreachable!()
    };
}

/// Opens a draft of zeros for the qubits of both.
fn begin_product(one: &mut Register, two: &Register)
    requires apart { AreApart one.old.value two.now.value }
    requires room { length one.old.value.qubits + length two.now.value.qubits ≤ one.old.limit }
    ensures { one.new ≡ record one.old { next = draft (zeros (one.old.value.qubits ++ two.now.value.qubits)) } }
{
    one.facts();
    two.facts();
    let numbers = joined(one.qubits(), two.qubits());
    let count = one.qubits().len() + two.qubits().len();
    one.begin(&numbers[..count]);
}

/// Some numbers and then others, at the front of a list.
fn joined(first: &[u8], second: &[u8]) -> [u8; REGISTER_QUBITS]
    requires { length first.now + length second.now ≤ 12 }
    ensures { take (length first.now + length second.now) result ≡ first.now ++ second.now }
{
    let mut numbers = [0; REGISTER_QUBITS];
    let end = first.len() + second.len();
    numbers[..first.len()].copy_from_slice(first);
    numbers[first.len()..end].copy_from_slice(second);
    numbers
}
