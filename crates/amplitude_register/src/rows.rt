//! Gates on the rows of a list, in pairs that differ in the bit at one place.
ghost use Rattle.std.specs.Prelude.{◌≡◌, ◌<◌, ◌≤◌, ◌^◌, true, length, swap, take};
ghost use Rattle.state_model.specs.Row.{is_set, with_bit};
ghost use Rattle.state_model.specs.Gate.{matrix};
ghost use Rattle.state_model.specs.declared.Gate.TheVariants.{H, X, RotZ};
ghost use Rattle.state_model.specs.Amplitudes.{IsGateList};
ghost use Rattle.omega_ring.specs.Views.{omega_values};
ghost use Rattle.amplitude_register.specs.Multiples.{AllWithin, HasPlace};

use omega_ring::Omega;

/// Whether the row's bit at the place is 1.
pub(crate) fn has_bit(row: usize, place: u8) -> bool
    requires { place < 12 }
    ensures { result ≡ is_set place row }
{
    (row >> place) % 2 == 1
}

/// Of so many rows, the one with the row's bit at the place 1.
pub(crate) fn with_high_bit(rows: usize, row: usize, place: u8) -> usize
    requires place { HasPlace place rows }
    requires row { row < rows }
    ensures value { result ≡ with_bit place true row }
    ensures inside { result < rows }
{
    row | (1 << place)
}

/// Two rows change places.
pub(crate) fn exchange_two(list: &mut [Omega], one: usize, two: usize)
    requires one { one < length list.old }
    requires two { two < length list.old }
    ensures { list.new ≡ swap list.old one two }
{
    let first = list[one];
    list[one] = list[two];
    list[two] = first;
}

/// Makes of each pair of rows their sum and their difference.
fn mix(list: &mut [Omega], place: u8)
    requires place { HasPlace place (length list.old) }
    requires range { AllWithin (2 ^ 61) (omega_values list.old) }
    ensures { IsGateList (matrix H) place (omega_values list.old) (omega_values list.new) }
{
    for row in 0..list.len() {
        if !has_bit(row, place) {
            let high = with_high_bit(list.len(), row, place);
            let zero = list[row];
            let one = list[high];
            list[row] = zero.plus(one);
            list[high] = zero.minus(one);
        }
    }
}

/// Exchanges the two rows of each pair.
fn exchange(list: &mut [Omega], place: u8)
    requires place { HasPlace place (length list.old) }
    ensures { IsGateList (matrix X) place (omega_values list.old) (omega_values list.new) }
{
    for row in 0..list.len() {
        if !has_bit(row, place) {
            let high = with_high_bit(list.len(), row, place);
            exchange_two(list, row, high);
        }
    }
}

/// Turns the rows whose bit is 1 by so many eighths.
fn turn(list: &mut [Omega], place: u8, eighths: u8)
    requires eighths { eighths < 8 }
    requires place { HasPlace place (length list.old) }
    requires range { AllWithin (2 ^ 61) (omega_values list.old) }
    ensures { IsGateList (matrix (RotZ eighths)) place (omega_values list.old) (omega_values list.new) }
{
    for row in 0..list.len() {
        if !has_bit(row, place) {
            let high = with_high_bit(list.len(), row, place);
            list[high] = list[high].times_root(eighths);
        }
    }
}

/// As `mix`, at the front of a list.
fn mix_part(list: &mut [Omega], rows: usize, place: u8)
    requires rows { rows ≤ length list.old }
    requires place { HasPlace place rows }
    requires range { AllWithin (2 ^ 61) (omega_values (take rows list.old)) }
    ensures { IsGateList (matrix H) place (omega_values (take rows list.old)) (omega_values (take rows list.new)) }
{
    mix(&mut list[..rows], place);
}

/// As `exchange`, at the front of a list.
fn exchange_part(list: &mut [Omega], rows: usize, place: u8)
    requires rows { rows ≤ length list.old }
    requires place { HasPlace place rows }
    ensures { IsGateList (matrix X) place (omega_values (take rows list.old)) (omega_values (take rows list.new)) }
{
    exchange(&mut list[..rows], place);
}

/// As `turn`, at the front of a list.
fn turn_part(list: &mut [Omega], rows: usize, place: u8, eighths: u8)
    requires rows { rows ≤ length list.old }
    requires eighths { eighths < 8 }
    requires place { HasPlace place rows }
    requires range { AllWithin (2 ^ 61) (omega_values (take rows list.old)) }
    ensures { IsGateList (matrix (RotZ eighths)) place (omega_values (take rows list.old)) (omega_values (take rows list.new)) }
{
    turn(&mut list[..rows], place, eighths);
}

/// As `mix`, at the front of a buffer.
pub(crate) fn mix_front(entries: &mut Vec<Omega>, rows: usize, place: u8)
    requires rows { rows ≤ length entries.old.items }
    requires place { HasPlace place rows }
    requires range { AllWithin (2 ^ 61) (omega_values (take rows entries.old.items)) }
    ensures room { length entries.new.items ≡ length entries.old.items }
    ensures list { IsGateList (matrix H) place (omega_values (take rows entries.old.items)) (omega_values (take rows entries.new.items)) }
{
    mix_part(entries, rows, place);
}

/// As `exchange`, at the front of a buffer.
pub(crate) fn exchange_front(entries: &mut Vec<Omega>, rows: usize, place: u8)
    requires rows { rows ≤ length entries.old.items }
    requires place { HasPlace place rows }
    ensures room { length entries.new.items ≡ length entries.old.items }
    ensures list { IsGateList (matrix X) place (omega_values (take rows entries.old.items)) (omega_values (take rows entries.new.items)) }
{
    exchange_part(entries, rows, place);
}

/// As `turn`, at the front of a buffer.
pub(crate) fn turn_front(entries: &mut Vec<Omega>, rows: usize, place: u8, eighths: u8)
    requires rows { rows ≤ length entries.old.items }
    requires eighths { eighths < 8 }
    requires place { HasPlace place rows }
    requires range { AllWithin (2 ^ 61) (omega_values (take rows entries.old.items)) }
    ensures room { length entries.new.items ≡ length entries.old.items }
    ensures list { IsGateList (matrix (RotZ eighths)) place (omega_values (take rows entries.old.items)) (omega_values (take rows entries.new.items)) }
{
    turn_part(entries, rows, place, eighths);
}
