//! Division of all entries by 1 - w^2 where that goes, and then by its factor 1 - w or 1 + w, by that which does not
//! raise the sum of squares.
#![tactic(auto, using(crate::proofs::Loops::each_entry))]

ghost use Rattle.std.specs.Prelude.{◌≡◌, ◌^◌, ◌≤ℤ◌, ◌<ℤ◌, pos, IsTrue, ◌↔◌};
ghost use Rattle.state_model.specs.Divisors.{delta, delta_conjugate, both_deltas};
ghost use Rattle.state_model.specs.CoefficientList.{DividesAll, IsScaled, IsNonzero, total_weight};
ghost use Rattle.omega_ring.specs.Views.{omega_values, weight_value};
ghost use Rattle.amplitude_register.specs.Multiples.{AllWithin, AreTimes};

use crate::bounds::bounds;
use omega_ring::{Omega, Weight};

/// Whether 1 - w divides each entry.
pub(crate) fn all_divisible(list: &[Omega]) -> bool
    requires { AllWithin (2 ^ 61) (omega_values list.now) }
    ensures { IsTrue result ↔ DividesAll delta (omega_values list.now) }
{
    for z in list {
        if !z.delta_divides() {
            return false;
        }
    }
    true
}

/// Whether 1 - w^2 divides each entry.
pub(crate) fn all_divisible_by_both(list: &[Omega]) -> bool
    requires { AllWithin (2 ^ 61) (omega_values list.now) }
    ensures { IsTrue result → DividesAll both_deltas (omega_values list.now) }
{
    for z in list {
        if !z.both_divide() {
            return false;
        }
    }
    true
}

/// Each entry over 1 - w^2.
pub(crate) fn divide_by_both(list: &mut [Omega])
    requires range { AllWithin (2 ^ 61) (omega_values list.old) }
    requires divides { DividesAll both_deltas (omega_values list.old) }
    ensures { AreTimes (omega_values list.old) (omega_values list.new) both_deltas }
{
    for z in list.iter_mut() {
        *z = z.over_both();
    }
}

/// Each entry over 1 - w.
pub(crate) fn divide_by_delta(list: &mut [Omega])
    requires range { AllWithin (2 ^ 61) (omega_values list.old) }
    requires divides { DividesAll delta (omega_values list.old) }
    ensures { AreTimes (omega_values list.old) (omega_values list.new) delta }
{
    for z in list.iter_mut() {
        *z = z.over_delta();
    }
}

/// Each entry over 1 + w.
pub(crate) fn divide_by_conjugate(list: &mut [Omega])
    requires range { AllWithin (2 ^ 61) (omega_values list.old) }
    requires divides { DividesAll delta (omega_values list.old) }
    ensures { AreTimes (omega_values list.old) (omega_values list.new) delta_conjugate }
{
    for z in list.iter_mut() {
        *z = z.over_conjugate();
    }
}

/// Divides by powers of 1 - w or 1 + w that do not raise the sum of squares, while that goes, and gives the weight.
pub(crate) fn divide_out(list: &mut [Omega], weight: Weight) -> Weight
    requires weight { weight_value weight ≡ total_weight (omega_values list.old) }
    requires small { weight.x <ℤ pos (2 ^ 122) }
    requires nonzero { IsNonzero (omega_values list.old) }
    ensures weight { weight_value result ≡ total_weight (omega_values list.new) }
    ensures small { result.x ≤ℤ weight.x }
    ensures scaled { IsScaled (omega_values list.new) (omega_values list.old) }
    ensures done { ¬ (DividesAll delta (omega_values list.new)) }
{
    bounds(list, weight);
    if all_divisible_by_both(list) {
        divide_by_both(list);
        divide_out(list, weight.over_both())
    } else if !all_divisible(list) {
        weight
    } else if weight.y > 0 {
        divide_by_conjugate(list);
        divide_out(list, weight.over_conjugate())
    } else {
        divide_by_delta(list);
        divide_out(list, weight.over_delta())
    }
}
