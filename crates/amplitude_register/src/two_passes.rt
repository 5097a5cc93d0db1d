//! Gates of two qubits in one pass from the rows of one list to those of another, from the last row to the first.
ghost use Rattle.std.specs.Prelude.{◌≡◌, ◌+◌, ◌<◌, ◌≤◌, ◌^◌, ◌++◌, cond, length, take, drop};
ghost use Rattle.state_model.specs.Row.{is_set, turned};
ghost use Rattle.state_model.specs.declared.Two.TheVariants.{Cnot, Cphase};
ghost use Rattle.state_model.specs.Amplitudes.{IsTwoGateList, IsTwoGateRow};
ghost use Rattle.omega_ring.specs.Views.{omega_value, omega_values};
ghost use Rattle.amplitude_register.specs.Multiples.{AllWithin, HasPlace};

use crate::block::Block;
use crate::controlled::has_both;
use crate::fronts::rows_of;
use crate::rows::has_bit;
use omega_ring::Omega;

/// Runs of 2^5 rows and more are copied faster as slices than row by row.
const RUN_PLACE: u8 = 5;

/// Of so many rows, the one with the row's bit at the target turned, where that at the control is 1.
fn controlled_row(rows: usize, row: usize, control: u8, target: u8) -> usize
    requires low { control < 12 }
    requires place { HasPlace target rows }
    requires row { row < rows }
    ensures value { result ≡ cond (is_set control row) (turned target row) row }
    ensures inside { result < rows }
{
    if has_bit(row, control) {
        row ^ (1 << target)
    } else {
        row
    }
}

/// The coefficient of a row, negated where its bits at both places are 1.
fn phased(from: &[Omega], row: usize, one: u8, two: u8) -> Omega
    requires one { one < 12 }
    requires two { two < 12 }
    requires row { row < length from.now }
    requires range { AllWithin (2 ^ 61) (omega_values from.now) }
    ensures { IsTwoGateRow Cphase one two (omega_values from.now) row (omega_value result) }
{
    if has_both(row, one, two) {
        from[row].negated()
    } else {
        from[row]
    }
}

/// Copies so many rows from a row of one list on to a row of the other.
fn copy_run(list: &mut [Omega], to: usize, from: &[Omega], start: usize, run: usize)
    requires to { to + run ≤ length list.old }
    requires from { start + run ≤ length from.now }
    ensures { list.new ≡ take to list.old ++ (take run (drop start from.now) ++ drop (to + run) list.old) }
{
    list[to..to + run].copy_from_slice(&from[start..start + run]);
}

/// Writes row by row what CNOT makes of the rows.
fn exchange_rows_into(list: &mut [Omega], from: &[Omega], control: u8, target: u8)
    requires same { length list.old ≡ length from.now }
    requires low { control < 12 }
    requires place { HasPlace target (length from.now) }
    ensures { IsTwoGateList Cnot control target (omega_values from.now) (omega_values list.new) }
{
    for row in (0..from.len()).rev() {
        list[row] = from[controlled_row(from.len(), row, control, target)];
    }
}

/// Writes what CNOT makes of the rows in runs of 2^place rows, which stay together.
fn exchange_runs_into(list: &mut [Omega], from: &[Omega], control: u8, target: u8, place: u8)
    requires same { length list.old ≡ length from.now }
    requires low { control < 12 }
    requires place { HasPlace target (length from.now) }
    requires under_control { place ≤ control }
    requires under_target { place ≤ target }
    ensures { IsTwoGateList Cnot control target (omega_values from.now) (omega_values list.new) }
{
    let run = rows_of(place as usize);
    for k in (0..from.len() / run).rev() {
        let row = k * run;
        let start = controlled_row(from.len(), row, control, target);
        copy_run(list, row, from, start, run);
    }
}

/// Writes the rows, those exchanged that differ in the bit at the target, where that at the control is 1.
fn exchange_where_into(list: &mut [Omega], from: &[Omega], control: u8, target: u8)
    requires same { length list.old ≡ length from.now }
    requires low { control < 12 }
    requires place { HasPlace target (length from.now) }
    ensures { IsTwoGateList Cnot control target (omega_values from.now) (omega_values list.new) }
{
    let place = control.min(target);
    if place < RUN_PLACE {
        exchange_rows_into(list, from, control, target);
    } else {
        exchange_runs_into(list, from, control, target, place);
    }
}

/// Writes the rows, those negated in which the bits at both places are 1.
fn negate_where_into(list: &mut [Omega], from: &[Omega], one: u8, two: u8)
    requires same { length list.old ≡ length from.now }
    requires one { one < 12 }
    requires two { two < 12 }
    requires range { AllWithin (2 ^ 61) (omega_values from.now) }
    ensures { IsTwoGateList Cphase one two (omega_values from.now) (omega_values list.new) }
{
    for row in (0..from.len()).rev() {
        list[row] = phased(from, row, one, two);
    }
}

/// As `exchange_where_into`, at the front of two lists.
fn exchange_where_into_part(
    list: &mut [Omega],
    from: &[Omega],
    rows: usize,
    control: u8,
    target: u8,
)
    requires to { rows ≤ length list.old }
    requires from { rows ≤ length from.now }
    requires low { control < 12 }
    requires place { HasPlace target rows }
    ensures { IsTwoGateList Cnot control target (omega_values (take rows from.now)) (omega_values (take rows list.new)) }
{
    exchange_where_into(&mut list[..rows], &from[..rows], control, target);
}

/// As `negate_where_into`, at the front of two lists.
fn negate_where_into_part(list: &mut [Omega], from: &[Omega], rows: usize, one: u8, two: u8)
    requires to { rows ≤ length list.old }
    requires from { rows ≤ length from.now }
    requires one { one < 12 }
    requires two { two < 12 }
    requires range { AllWithin (2 ^ 61) (omega_values (take rows from.now)) }
    ensures { IsTwoGateList Cphase one two (omega_values (take rows from.now)) (omega_values (take rows list.new)) }
{
    negate_where_into(&mut list[..rows], &from[..rows], one, two);
}

/// As `exchange_where_into`, from a block to the front of a buffer.
pub(crate) fn exchange_front_into(entries: &mut Vec<Omega>, from: &Block, control: u8, target: u8)
    requires to { from.now.rows ≤ length entries.old.items }
    requires from { from.now.rows ≤ length from.now.entries.items }
    requires low { control < 12 }
    requires place { HasPlace target from.now.rows }
    ensures room { length entries.new.items ≡ length entries.old.items }
    ensures list { IsTwoGateList Cnot control target (omega_values (take from.now.rows from.now.entries.items)) (omega_values (take from.now.rows entries.new.items)) }
{
    exchange_where_into_part(entries, &from.entries, from.rows, control, target);
}

/// As `negate_where_into`, from a block to the front of a buffer.
pub(crate) fn negate_front_into(entries: &mut Vec<Omega>, from: &Block, one: u8, two: u8)
    requires to { from.now.rows ≤ length entries.old.items }
    requires from { from.now.rows ≤ length from.now.entries.items }
    requires one { one < 12 }
    requires two { two < 12 }
    requires range { AllWithin (2 ^ 61) (omega_values (take from.now.rows from.now.entries.items)) }
    ensures room { length entries.new.items ≡ length entries.old.items }
    ensures list { IsTwoGateList Cphase one two (omega_values (take from.now.rows from.now.entries.items)) (omega_values (take from.now.rows entries.new.items)) }
{
    negate_where_into_part(entries, &from.entries, from.rows, one, two);
}
