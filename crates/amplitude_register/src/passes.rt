//! Gates in one pass from the rows of one list to those of another. Rows are written from the last to the first: the
//! halves of a row are stored in that order, and so the lines of the cache fill one after the other.
ghost use Rattle.std.specs.Prelude.{◌≡◌, ◌<◌, ◌≤◌, ◌^◌, false, length, take};
ghost use Rattle.state_model.specs.Row.{with_bit};
ghost use Rattle.state_model.specs.Gate.{matrix};
ghost use Rattle.state_model.specs.declared.Gate.TheVariants.{H, RotZ};
ghost use Rattle.state_model.specs.Amplitudes.{IsGateList, IsGateRow};
ghost use Rattle.omega_ring.specs.Views.{omega_value, omega_values};
ghost use Rattle.amplitude_register.specs.Multiples.{AllWithin, HasPlace};

use crate::block::Block;
use crate::rows::{has_bit, with_high_bit};
use omega_ring::Omega;

/// Of so many rows, the one with the row's bit at the place 0.
fn with_low_bit(rows: usize, row: usize, place: u8) -> usize
    requires place { HasPlace place rows }
    requires row { row < rows }
    ensures value { result ≡ with_bit place false row }
    ensures inside { result < rows }
{
    (row | (1 << place)) ^ (1 << place)
}

/// The sum or the difference that a Hadamard gives a row.
fn mixed(from: &[Omega], row: usize, place: u8) -> Omega
    requires place { HasPlace place (length from.now) }
    requires row { row < length from.now }
    requires range { AllWithin (2 ^ 61) (omega_values from.now) }
    ensures { IsGateRow (matrix H) place (omega_values from.now) row (omega_value result) }
{
    if has_bit(row, place) {
        from[with_low_bit(from.len(), row, place)].minus(from[row])
    } else {
        from[row].plus(from[with_high_bit(from.len(), row, place)])
    }
}

/// The coefficient of a row, turned by so many eighths where its bit is 1.
fn turned(from: &[Omega], row: usize, place: u8, eighths: u8) -> Omega
    requires low { place < 12 }
    requires eighths { eighths < 8 }
    requires row { row < length from.now }
    requires range { AllWithin (2 ^ 61) (omega_values from.now) }
    ensures { IsGateRow (matrix (RotZ eighths)) place (omega_values from.now) row (omega_value result) }
{
    if has_bit(row, place) {
        from[row].times_root(eighths)
    } else {
        from[row]
    }
}

/// Writes the sum and the difference of each pair of rows.
fn mix_into(list: &mut [Omega], from: &[Omega], place: u8)
    requires same { length list.old ≡ length from.now }
    requires place { HasPlace place (length from.now) }
    requires range { AllWithin (2 ^ 61) (omega_values from.now) }
    ensures { IsGateList (matrix H) place (omega_values from.now) (omega_values list.new) }
{
    for row in (0..from.len()).rev() {
        list[row] = mixed(from, row, place);
    }
}

/// Writes the rows, those turned whose bit is 1.
fn turn_into(list: &mut [Omega], from: &[Omega], place: u8, eighths: u8)
    requires same { length list.old ≡ length from.now }
    requires eighths { eighths < 8 }
    requires place { HasPlace place (length from.now) }
    requires range { AllWithin (2 ^ 61) (omega_values from.now) }
    ensures { IsGateList (matrix (RotZ eighths)) place (omega_values from.now) (omega_values list.new) }
{
    for row in (0..from.len()).rev() {
        list[row] = turned(from, row, place, eighths);
    }
}

/// As `mix_into`, at the front of two lists.
fn mix_into_part(list: &mut [Omega], from: &[Omega], rows: usize, place: u8)
    requires to { rows ≤ length list.old }
    requires from { rows ≤ length from.now }
    requires place { HasPlace place rows }
    requires range { AllWithin (2 ^ 61) (omega_values (take rows from.now)) }
    ensures { IsGateList (matrix H) place (omega_values (take rows from.now)) (omega_values (take rows list.new)) }
{
    mix_into(&mut list[..rows], &from[..rows], place);
}

/// As `turn_into`, at the front of two lists.
fn turn_into_part(list: &mut [Omega], from: &[Omega], rows: usize, place: u8, eighths: u8)
    requires to { rows ≤ length list.old }
    requires from { rows ≤ length from.now }
    requires eighths { eighths < 8 }
    requires place { HasPlace place rows }
    requires range { AllWithin (2 ^ 61) (omega_values (take rows from.now)) }
    ensures { IsGateList (matrix (RotZ eighths)) place (omega_values (take rows from.now)) (omega_values (take rows list.new)) }
{
    turn_into(&mut list[..rows], &from[..rows], place, eighths);
}

/// As `mix_into`, from a block to the front of a buffer.
pub(crate) fn mix_front_into(entries: &mut Vec<Omega>, from: &Block, place: u8)
    requires to { from.now.rows ≤ length entries.old.items }
    requires from { from.now.rows ≤ length from.now.entries.items }
    requires place { HasPlace place from.now.rows }
    requires range { AllWithin (2 ^ 61) (omega_values (take from.now.rows from.now.entries.items)) }
    ensures room { length entries.new.items ≡ length entries.old.items }
    ensures list { IsGateList (matrix H) place (omega_values (take from.now.rows from.now.entries.items)) (omega_values (take from.now.rows entries.new.items)) }
{
    mix_into_part(entries, &from.entries, from.rows, place);
}

/// As `turn_into`, from a block to the front of a buffer.
pub(crate) fn turn_front_into(entries: &mut Vec<Omega>, from: &Block, place: u8, eighths: u8)
    requires to { from.now.rows ≤ length entries.old.items }
    requires from { from.now.rows ≤ length from.now.entries.items }
    requires eighths { eighths < 8 }
    requires place { HasPlace place from.now.rows }
    requires range { AllWithin (2 ^ 61) (omega_values (take from.now.rows from.now.entries.items)) }
    ensures room { length entries.new.items ≡ length entries.old.items }
    ensures list { IsGateList (matrix (RotZ eighths)) place (omega_values (take from.now.rows from.now.entries.items)) (omega_values (take from.now.rows entries.new.items)) }
{
    turn_into_part(entries, &from.entries, from.rows, place, eighths);
}
