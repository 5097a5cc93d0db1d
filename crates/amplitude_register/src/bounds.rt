//! What a small sum of weights bounds.
ghost use Rattle.std.specs.Prelude.{◌≡◌, ◌^◌, ◌<ℤ◌, pos};
ghost use Rattle.state_model.specs.CoefficientList.{total_weight};
ghost use Rattle.omega_ring.specs.Views.{omega_values, weight_value};
ghost use Rattle.omega_ring.specs.Range.{PartsBelow};
ghost use Rattle.amplitude_register.specs.Multiples.{AllWithin};

use omega_ring::{Omega, Weight};

/// Where the squares sum up to less than 2^122, both parts of the sum of weights and all coordinates are bounded.
pub(crate) fn bounds(list: &[Omega], weight: Weight)
    requires weight { weight_value weight ≡ total_weight (omega_values list.now) }
    requires small { weight.x <ℤ pos (2 ^ 122) }
    ensures parts { PartsBelow (2 ^ 122) (weight_value weight) }
    ensures range { AllWithin (2 ^ 61) (omega_values list.now) }
{}
