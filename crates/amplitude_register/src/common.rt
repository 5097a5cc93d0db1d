//! Division of all entries by what they have in common.
ghost use Rattle.std.specs.Prelude.{◌≡◌, ◌≢◌, ◌≤◌, ◌^◌, ◌<ℤ◌, pos, length, take, MatchOption};
ghost use Rattle.state_model.specs.Coefficient.{zero_coefficient};
ghost use Rattle.state_model.specs.CoefficientList.{DividesAll, IsNonzero, HasDeltaDivisors, total_weight};
ghost use Rattle.omega_ring.specs.Views.{omega_value, omega_values};
ghost use Rattle.omega_ring.specs.Steps.{IsReady};
ghost use Rattle.amplitude_register.specs.Multiples.{AllWithin, AreTimes, IsReducedFrom, IsGreatestOf};

use crate::fronts;
use omega_ring::Omega;

/// A greatest common divisor of all entries; None, most often after a few of them, where the common divisors are
/// units times powers of 1 - w.
#[tactic(auto, using(crate::proofs::Folded::entry_fits))]
fn common_of(list: &[Omega]) -> Option<Omega>
    requires { (total_weight (omega_values list.now)).x <ℤ pos (2 ^ 60) }
    ensures { MatchOption result (HasDeltaDivisors (omega_values list.now)) (λ u. IsGreatestOf (omega_values list.now) (omega_value u)) }
{
    let mut common = fronts::ZERO;
    for z in list {
        if !z.is_zero() {
            common = common.gcd(*z);
            if common.is_delta_power() {
                return None;
            }
        }
    }
    Some(common)
}

/// The same of the front of a buffer.
pub(crate) fn common_front(entries: &Vec<Omega>, rows: usize) -> Option<Omega>
    requires rows { rows ≤ length entries.now.items }
    requires small { (total_weight (omega_values (take rows entries.now.items))).x <ℤ pos (2 ^ 60) }
    ensures { MatchOption result (HasDeltaDivisors (omega_values (take rows entries.now.items)))
        (λ u. IsGreatestOf (omega_values (take rows entries.now.items)) (omega_value u)) }
{
    common_of(&entries[..rows])
}

/// Each entry over one that divides it.
#[tactic(auto, using(crate::proofs::Loops::each_entry))]
fn divide_by(list: &mut [Omega], u: Omega)
    requires range { AllWithin (2 ^ 31) (omega_values list.old) }
    requires ready { IsReady (omega_value u) }
    requires nonzero { omega_value u ≢ zero_coefficient }
    requires divides { DividesAll (omega_value u) (omega_values list.old) }
    ensures { AreTimes (omega_values list.old) (omega_values list.new) (omega_value u) }
{
    for z in list.iter_mut() {
        *z = z.div_exact(u);
    }
}

/// Each entry over a greatest common divisor of all.
fn divide_all(list: &mut [Omega], common: Omega)
    requires nonzero { IsNonzero (omega_values list.old) }
    requires small { (total_weight (omega_values list.old)).x <ℤ pos (2 ^ 60) }
    requires greatest { IsGreatestOf (omega_values list.old) (omega_value common) }
    ensures reduced { IsReducedFrom (omega_values list.old) (omega_values list.new) }
    ensures small { (total_weight (omega_values list.new)).x <ℤ pos (2 ^ 62) }
{
    divide_by(list, common);
}

/// The same at the front of a list.
fn divide_part(list: &mut [Omega], rows: usize, common: Omega)
    requires rows { rows ≤ length list.old }
    requires nonzero { IsNonzero (omega_values (take rows list.old)) }
    requires small { (total_weight (omega_values (take rows list.old))).x <ℤ pos (2 ^ 60) }
    requires greatest { IsGreatestOf (omega_values (take rows list.old)) (omega_value common) }
    ensures reduced { IsReducedFrom (omega_values (take rows list.old)) (omega_values (take rows list.new)) }
    ensures small { (total_weight (omega_values (take rows list.new))).x <ℤ pos (2 ^ 62) }
{
    divide_all(&mut list[..rows], common);
}

/// The same at the front of a buffer.
pub(crate) fn divide_front(entries: &mut Vec<Omega>, rows: usize, common: Omega)
    requires rows { rows ≤ length entries.old.items }
    requires nonzero { IsNonzero (omega_values (take rows entries.old.items)) }
    requires small { (total_weight (omega_values (take rows entries.old.items))).x <ℤ pos (2 ^ 60) }
    requires greatest { IsGreatestOf (omega_values (take rows entries.old.items)) (omega_value common) }
    ensures room { length entries.new.items ≡ length entries.old.items }
    ensures reduced { IsReducedFrom (omega_values (take rows entries.old.items)) (omega_values (take rows entries.new.items)) }
    ensures small { (total_weight (omega_values (take rows entries.new.items))).x <ℤ pos (2 ^ 62) }
{
    divide_part(entries, rows, common);
}
