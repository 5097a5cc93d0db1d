//! Products of all entries with units, until twice the absolute value of the weight's y is at most its x.
ghost use Rattle.std.specs.Prelude.{◌≡◌, ◌^◌, ◌<ℤ◌, pos};
ghost use Rattle.state_model.specs.Divisors.{unit_up, unit_down, IsBalanced};
ghost use Rattle.state_model.specs.CoefficientList.{IsScaled, total_weight};
ghost use Rattle.omega_ring.specs.Views.{omega_values, weight_value};
ghost use Rattle.amplitude_register.specs.Multiples.{AllWithin, AreTimes};

use crate::bounds::bounds;
use omega_ring::{Omega, Weight};

/// Each entry times sqrt(2) + 1.
#[tactic(auto, using(crate::proofs::Loops::each_entry))]
pub(crate) fn raise(list: &mut [Omega])
    requires { AllWithin (2 ^ 61) (omega_values list.old) }
    ensures { AreTimes (omega_values list.new) (omega_values list.old) unit_up }
{
    for z in list.iter_mut() {
        *z = z.times_unit_up();
    }
}

/// Each entry times sqrt(2) - 1.
#[tactic(auto, using(crate::proofs::Loops::each_entry))]
pub(crate) fn lower(list: &mut [Omega])
    requires { AllWithin (2 ^ 61) (omega_values list.old) }
    ensures { AreTimes (omega_values list.new) (omega_values list.old) unit_down }
{
    for z in list.iter_mut() {
        *z = z.times_unit_down();
    }
}

/// Multiplies by units until twice the absolute value of the weight's y is at most its x, and gives the weight.
pub(crate) fn balance(list: &mut [Omega], weight: Weight) -> Weight
    requires weight { weight_value weight ≡ total_weight (omega_values list.old) }
    requires small { weight.x <ℤ pos (2 ^ 122) }
    ensures weight { weight_value result ≡ total_weight (omega_values list.new) }
    ensures balanced { IsBalanced (weight_value result) }
    ensures scaled { IsScaled (omega_values list.new) (omega_values list.old) }
{
    bounds(list, weight);
    if weight.is_high() {
        lower(list);
        balance(list, weight.lowered())
    } else if weight.is_low() {
        raise(list);
        balance(list, weight.raised())
    } else {
        weight
    }
}
