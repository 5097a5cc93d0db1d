//! What is written at the front of a buffer.
ghost use Rattle.std.specs.Prelude.{◌<◌, false, MatchOption, slice_index_or, ◌≡◌, ◌≤◌, ◌^◌, pos, length, take, replicate, cond, ◌∷◌, []};
ghost use Rattle.state_model.specs.Coefficient.{zero_coefficient, one_coefficient};
ghost use Rattle.state_model.specs.Row.{is_listed};
ghost use Rattle.omega_ring.specs.Views.{omega_values};

use omega_ring::{Omega, coefficient};
use state_model::REGISTER_QUBITS;

/// Writes zeros at the front of a list.
pub(crate) fn clear_part(list: &mut [Omega], rows: usize)
    requires { rows ≤ length list.old }
    ensures { take rows list.new ≡ replicate rows record { a = pos 0; b = pos 0; c = pos 0; d = pos 0 } }
{
    list[..rows].fill(ZERO);
}

/// Writes zeros at the front of a buffer.
pub(crate) fn clear_front(entries: &mut Vec<Omega>, rows: usize)
    requires { rows ≤ length entries.old.items }
    ensures room { length entries.new.items ≡ length entries.old.items }
    ensures zeros { take rows entries.new.items ≡ replicate rows record { a = pos 0; b = pos 0; c = pos 0; d = pos 0 } }
{
    clear_part(entries, rows);
}

/// Copies the front of one list to another.
pub(crate) fn copy_part(list: &mut [Omega], from: &[Omega], rows: usize)
    requires to { rows ≤ length list.old }
    requires from { rows ≤ length from.now }
    ensures { take rows list.new ≡ take rows from.now }
{
    list[..rows].copy_from_slice(&from[..rows]);
}

/// Copies the front of one buffer to another.
pub(crate) fn copy_front(entries: &mut Vec<Omega>, from: &Vec<Omega>, rows: usize)
    requires to { rows ≤ length entries.old.items }
    requires from { rows ≤ length from.now.items }
    ensures room { length entries.new.items ≡ length entries.old.items }
    ensures copied { take rows entries.new.items ≡ take rows from.now.items }
{
    copy_part(entries, from, rows);
}

/// The numbers at the front of the list of a block.
pub(crate) fn write_numbers(into: &mut [u8; REGISTER_QUBITS], numbers: &[u8])
    requires { length numbers.now ≤ 12 }
    ensures written { take (length numbers.now) into.new ≡ numbers.now }
    ensures room { length into.new ≡ 12 }
{
    into[..numbers.len()].copy_from_slice(numbers);
}

/// The number of rows of so many qubits.
pub(crate) fn rows_of(count: usize) -> usize
    requires { count ≤ 12 }
    ensures { result ≡ 2 ^ count }
{
    1 << count
}

/// No amplitude.
pub(crate) const ZERO: Omega = coefficient!(0, 0, 0, 0);

/// The amplitude 1.
pub(crate) const ONE: Omega = coefficient!(1, 0, 0, 0);

/// Writes a 1 at the front of a buffer.
pub(crate) fn write_one(entries: &mut Vec<Omega>)
    requires { 1 ≤ length entries.old.items }
    ensures room { length entries.new.items ≡ length entries.old.items }
    ensures written { omega_values (take 1 entries.new.items) ≡ one_coefficient ∷ [] }
{
    entries[0] = ONE;
}

/// Writes a basis state of one qubit at the front of a buffer.
pub(crate) fn write_basis(entries: &mut Vec<Omega>, bit: bool)
    requires { 2 ≤ length entries.old.items }
    ensures room { length entries.new.items ≡ length entries.old.items }
    ensures written { omega_values (take 2 entries.new.items) ≡ cond bit zero_coefficient one_coefficient ∷ cond bit one_coefficient zero_coefficient ∷ [] }
{
    if bit {
        entries[0] = ZERO;
        entries[1] = ONE;
    } else {
        entries[0] = ONE;
        entries[1] = ZERO;
    }
}

/// Writes the number at the front.
pub(crate) fn write_number(into: &mut [u8; REGISTER_QUBITS], q: u8)
    ensures written { take 1 into.new ≡ q ∷ [] }
    ensures room { length into.new ≡ 12 }
{
    into[0] = q;
}

/// Writes two numbers at the front.
pub(crate) fn write_two(into: &mut [u8; REGISTER_QUBITS], p: u8, q: u8)
    ensures written { take 2 into.new ≡ p ∷ q ∷ [] }
    ensures room { length into.new ≡ 12 }
{
    into[0] = p;
    into[1] = q;
}

/// Writes a pair's coefficients 1, 0, 0, 1 at the front of a buffer.
pub(crate) fn write_pair(entries: &mut Vec<Omega>)
    requires { 4 ≤ length entries.old.items }
    ensures room { length entries.new.items ≡ length entries.old.items }
    ensures written { omega_values (take 4 entries.new.items) ≡ one_coefficient ∷ zero_coefficient ∷ zero_coefficient ∷ one_coefficient ∷ [] }
{
    entries[0] = ONE;
    entries[1] = ZERO;
    entries[2] = ZERO;
    entries[3] = ONE;
}

/// The place of a number in a list of at most twelve.
pub(crate) fn place_in(list: &[u8], q: u8) -> Option<u8>
    requires { length list.now ≤ 12 }
    ensures { MatchOption result (is_listed list.now q ≡ false) (λ k. (k < length list.now) × (slice_index_or list.now k 0 ≡ q)) }
{
    for k in 0..list.len() {
        if list[k] == q {
            return Some(k as u8);
        }
    }
    None
}
