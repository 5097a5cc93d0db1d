//! The gate H in two passes from the rows of one list to those of another: the first finds by parities what divides
//! all sums and differences, and the second writes them divided. Sum and difference of two rows differ by twice a
//! row, and 2 is (1 - w)^4 up to a unit, so that powers up to the fourth divide both or none, and the first pass
//! looks at sums alone.
ghost use Rattle.std.specs.Prelude.{◌≡◌, ◌<◌, ◌≤◌, ◌^◌, ◌/◌, ◌<ℤ◌, ◌↔◌, pos, false, length, take};
ghost use Rattle.state_model.specs.Coefficient.{◌⊗◌};
ghost use Rattle.state_model.specs.CoefficientList.{IsNormal, IsScaled, total_weight};
ghost use Rattle.state_model.specs.Divisors.{delta, IsBalanced};
ghost use Rattle.state_model.specs.Quotients.{IsEven};
ghost use Rattle.state_model.specs.Row.{inserted, is_set};
ghost use Rattle.omega_ring.specs.Views.{omega_value, omega_values, weight_value};
ghost use Rattle.omega_ring.specs.Range.{CoordinatesBelow};
ghost use Rattle.amplitude_register.specs.Multiples.{AllWithin, HasPlace};
ghost use Rattle.amplitude_register.specs.Mixed.{divisor_value, DividesMixed, IsMixedOver, IsMixedNormal, IsJoined, IsAllowed};
ghost use Rattle.amplitude_register.specs.declared.divisor.Divisor.TheVariants.{Two};

use crate::balancing::balance;
use crate::block::Block;
use crate::divisor::Divisor;
use crate::rows::with_high_bit;
use omega_ring::{Omega, Weight, is_even};

/// What coefficients have in common: each number is even exactly where what it stands for is even in all of them.
#[derive(Clone, Copy, Drop)]
pub(crate) struct Parities {
    /// The sum of the coordinates.
    total: i64,
    /// The differences of the coordinates in turn, those at 1 and w^2 and those at w and w^3.
    turns: i64,
    /// The difference of the coordinates at 1 and w.
    steps: i64,
    /// The coordinate at 1.
    first: i64,
}

/// The parities of no coefficient.
const ALL_EVEN: Parities = Parities {
    total: 0,
    turns: 0,
    steps: 0,
    first: 0,
};

impl Parities {
    /// The parities with a further coefficient.
    fn with(self, z: Omega) -> Parities
        requires { CoordinatesBelow (2 ^ 61) (omega_value z) }
        ensures { IsJoined self (omega_value z) result }
    {
        Parities {
            total: joined(self.total, z.a + z.b + z.c + z.d),
            turns: joined(joined(self.turns, z.a - z.c), z.b - z.d),
            steps: joined(self.steps, z.a - z.b),
            first: joined(self.first, z.a),
        }
    }

    /// The highest power of 1 - w, up to the fourth, that divides all coefficients, as a divisor that doesn't raise
    /// the sum of squares of a list with this weight.
    fn divisor(self, weight: Weight) -> Divisor
        ensures { IsAllowed self result }
    {
        if !is_even(self.total) {
            Divisor::One
        } else if !is_even(self.turns) {
            if weight.y > 0 {
                Divisor::Conjugate
            } else {
                Divisor::Delta
            }
        } else if !is_even(self.steps) {
            Divisor::Both
        } else if !is_even(self.first) {
            if weight.y > 0 {
                Divisor::BothConjugate
            } else {
                Divisor::BothDelta
            }
        } else {
            Divisor::Two
        }
    }
}

/// A number that is even exactly where both are.
fn joined(m: i64, n: i64) -> i64
    ensures { IsEven result ↔ (IsEven m × IsEven n) }
{
    m | n
}

/// Of so many rows, the first one of a pair: the one whose other bits are the pair's, with the bit at the place 0.
fn low_row(rows: usize, pair: usize, place: u8) -> usize
    requires place { HasPlace place rows }
    requires pair { pair < rows / 2 }
    ensures value { result ≡ inserted place false pair }
    ensures low { is_set place result ≡ false }
    ensures inside { result < rows }
{
    pair + (pair >> place << place)
}

/// What divides all sums and differences of a reduced list's rows.
fn mixed_divisor(from: &[Omega], place: u8, weight: Weight) -> Divisor
    requires place { HasPlace place (length from.now) }
    requires range { AllWithin (2 ^ 31) (omega_values from.now) }
    ensures divides { DividesMixed (divisor_value result) place (omega_values from.now) }
    ensures most { DividesMixed (divisor_value result ⊗ delta) place (omega_values from.now) → result ≡ Two }
{
    let mut parities = ALL_EVEN;
    for pair in 0..from.len() / 2 {
        let low = low_row(from.len(), pair, place);
        let high = with_high_bit(from.len(), low, place);
        parities = parities.with(from[low].plus(from[high]));
    }
    parities.divisor(weight)
}

/// Writes the sum and the difference of each pair of rows over the divisor. It is part of its callers, each with a
/// divisor that is known, so that the loop has no branches.
#[inline(always)]
fn mix_over(list: &mut [Omega], from: &[Omega], place: u8, divisor: Divisor)
    requires same { length list.old ≡ length from.now }
    requires place { HasPlace place (length from.now) }
    requires range { AllWithin (2 ^ 31) (omega_values from.now) }
    requires divides { DividesMixed (divisor_value divisor) place (omega_values from.now) }
    ensures { IsMixedOver (divisor_value divisor) place (omega_values from.now) (omega_values list.new) }
{
    for pair in (0..from.len() / 2).rev() {
        let low = low_row(from.len(), pair, place);
        let high = with_high_bit(from.len(), low, place);
        let zero = from[low];
        let one = from[high];
        list[high] = divisor.over(zero.minus(one));
        list[low] = divisor.over(zero.plus(one));
    }
}

/// As `mix_over`, by a loop for each divisor.
fn mix_by(list: &mut [Omega], from: &[Omega], place: u8, divisor: Divisor)
    requires same { length list.old ≡ length from.now }
    requires place { HasPlace place (length from.now) }
    requires range { AllWithin (2 ^ 31) (omega_values from.now) }
    requires divides { DividesMixed (divisor_value divisor) place (omega_values from.now) }
    ensures { IsMixedOver (divisor_value divisor) place (omega_values from.now) (omega_values list.new) }
{
    match divisor {
        Divisor::One => mix_over(list, from, place, Divisor::One),
        Divisor::Delta => mix_over(list, from, place, Divisor::Delta),
        Divisor::Conjugate => mix_over(list, from, place, Divisor::Conjugate),
        Divisor::Both => mix_over(list, from, place, Divisor::Both),
        Divisor::BothDelta => mix_over(list, from, place, Divisor::BothDelta),
        Divisor::BothConjugate => mix_over(list, from, place, Divisor::BothConjugate),
        Divisor::Two => mix_over(list, from, place, Divisor::Two),
    }
}

/// Writes what H makes of a list that is reduced and has this weight, reduced and balanced, and gives its weight.
fn mix_normal(list: &mut [Omega], from: &[Omega], place: u8, weight: Weight) -> Weight
    requires same { length list.old ≡ length from.now }
    requires place { HasPlace place (length from.now) }
    requires normal { IsNormal (omega_values from.now) }
    requires weight { weight_value weight ≡ total_weight (omega_values from.now) }
    requires small { weight.x <ℤ pos (2 ^ 60) }
    ensures weight { weight_value result ≡ total_weight (omega_values list.new) }
    ensures mixed { IsMixedNormal place (omega_values from.now) (omega_values list.new) }
{
    let divisor = mixed_divisor(from, place, weight);
    mix_by(list, from, place, divisor);
    balance(list, divisor.weight_over(weight.doubled()))
}

/// As `mix_normal`, at the front of two lists.
fn mix_normal_part(
    list: &mut [Omega],
    from: &[Omega],
    rows: usize,
    place: u8,
    weight: Weight,
) -> Weight
    requires to { rows ≤ length list.old }
    requires from { rows ≤ length from.now }
    requires place { HasPlace place rows }
    requires normal { IsNormal (omega_values (take rows from.now)) }
    requires weight { weight_value weight ≡ total_weight (omega_values (take rows from.now)) }
    requires small { weight.x <ℤ pos (2 ^ 60) }
    ensures weight { weight_value result ≡ total_weight (omega_values (take rows list.new)) }
    ensures mixed { IsMixedNormal place (omega_values (take rows from.now)) (omega_values (take rows list.new)) }
{
    mix_normal(&mut list[..rows], &from[..rows], place, weight)
}

/// As `mix_normal`, from a block to the front of a buffer.
pub(crate) fn mix_normal_front(entries: &mut Vec<Omega>, from: &Block, place: u8) -> Weight
    requires to { from.now.rows ≤ length entries.old.items }
    requires from { from.now.rows ≤ length from.now.entries.items }
    requires place { HasPlace place from.now.rows }
    requires normal { IsNormal (omega_values (take from.now.rows from.now.entries.items)) }
    requires weight { weight_value from.now.weight ≡ total_weight (omega_values (take from.now.rows from.now.entries.items)) }
    requires small { from.now.weight.x <ℤ pos (2 ^ 60) }
    ensures room { length entries.new.items ≡ length entries.old.items }
    ensures weight { weight_value result ≡ total_weight (omega_values (take from.now.rows entries.new.items)) }
    ensures mixed { IsMixedNormal place (omega_values (take from.now.rows from.now.entries.items)) (omega_values (take from.now.rows entries.new.items)) }
{
    mix_normal_part(entries, &from.entries, from.rows, place, from.weight)
}
