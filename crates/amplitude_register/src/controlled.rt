//! Gates of two qubits on the rows of a list.
ghost use Rattle.std.specs.Prelude.{◌≡◌, ◌≢◌, ◌<◌, ◌≤◌, ◌^◌, ◌&&◌, not, length, take};
ghost use Rattle.state_model.specs.Row.{is_set};
ghost use Rattle.state_model.specs.declared.Two.TheVariants.{Cnot, Cphase};
ghost use Rattle.state_model.specs.Amplitudes.{IsTwoGateList};
ghost use Rattle.omega_ring.specs.Views.{omega_values};
ghost use Rattle.amplitude_register.specs.Multiples.{AllWithin, HasPlace};

use crate::rows::{exchange_two, has_bit, with_high_bit};
use omega_ring::Omega;

/// Whether the row's bit at the control is 1, and that at the target 0.
fn is_controlled(row: usize, control: u8, target: u8) -> bool
    requires control { control < 12 }
    requires target { target < 12 }
    ensures { result ≡ (is_set control row && not (is_set target row)) }
{
    has_bit(row, control) && !has_bit(row, target)
}

/// Whether the row's bits at both places are 1.
pub(crate) fn has_both(row: usize, one: u8, two: u8) -> bool
    requires one { one < 12 }
    requires two { two < 12 }
    ensures { result ≡ (is_set one row && is_set two row) }
{
    has_bit(row, one) && has_bit(row, two)
}

/// Exchanges the two rows of each pair that differ in the bit at the target, where that at the control is 1.
fn exchange_where(list: &mut [Omega], control: u8, target: u8)
    requires apart { control ≢ target }
    requires low { control < 12 }
    requires place { HasPlace target (length list.old) }
    ensures { IsTwoGateList Cnot control target (omega_values list.old) (omega_values list.new) }
{
    for row in 0..list.len() {
        if is_controlled(row, control, target) {
            let high = with_high_bit(list.len(), row, target);
            exchange_two(list, row, high);
        }
    }
}

/// Negates the rows in which the bits at both places are 1.
fn negate_where(list: &mut [Omega], one: u8, two: u8)
    requires one { one < 12 }
    requires two { two < 12 }
    requires range { AllWithin (2 ^ 61) (omega_values list.old) }
    ensures { IsTwoGateList Cphase one two (omega_values list.old) (omega_values list.new) }
{
    for row in 0..list.len() {
        if has_both(row, one, two) {
            list[row] = list[row].negated();
        }
    }
}

/// As `exchange_where`, at the front of a list.
fn exchange_where_part(list: &mut [Omega], rows: usize, control: u8, target: u8)
    requires apart { control ≢ target }
    requires rows { rows ≤ length list.old }
    requires low { control < 12 }
    requires place { HasPlace target rows }
    ensures { IsTwoGateList Cnot control target (omega_values (take rows list.old)) (omega_values (take rows list.new)) }
{
    exchange_where(&mut list[..rows], control, target);
}

/// As `negate_where`, at the front of a list.
fn negate_where_part(list: &mut [Omega], rows: usize, one: u8, two: u8)
    requires rows { rows ≤ length list.old }
    requires one { one < 12 }
    requires two { two < 12 }
    requires range { AllWithin (2 ^ 61) (omega_values (take rows list.old)) }
    ensures { IsTwoGateList Cphase one two (omega_values (take rows list.old)) (omega_values (take rows list.new)) }
{
    negate_where(&mut list[..rows], one, two);
}

/// As `exchange_where`, at the front of a buffer.
pub(crate) fn exchange_where_front(entries: &mut Vec<Omega>, rows: usize, control: u8, target: u8)
    requires apart { control ≢ target }
    requires rows { rows ≤ length entries.old.items }
    requires low { control < 12 }
    requires place { HasPlace target rows }
    ensures room { length entries.new.items ≡ length entries.old.items }
    ensures list { IsTwoGateList Cnot control target (omega_values (take rows entries.old.items)) (omega_values (take rows entries.new.items)) }
{
    exchange_where_part(entries, rows, control, target);
}

/// As `negate_where`, at the front of a buffer.
pub(crate) fn negate_where_front(entries: &mut Vec<Omega>, rows: usize, one: u8, two: u8)
    requires rows { rows ≤ length entries.old.items }
    requires one { one < 12 }
    requires two { two < 12 }
    requires range { AllWithin (2 ^ 61) (omega_values (take rows entries.old.items)) }
    ensures room { length entries.new.items ≡ length entries.old.items }
    ensures list { IsTwoGateList Cphase one two (omega_values (take rows entries.old.items)) (omega_values (take rows entries.new.items)) }
{
    negate_where_part(entries, rows, one, two);
}
