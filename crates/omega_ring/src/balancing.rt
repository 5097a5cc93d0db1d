//! Balancing a weight by powers of 3 + 2 sqrt(2).
ghost use Rattle.std.specs.Prelude.{◌≡◌, ℕ, ◌<◌, ◌^◌, ◌+ℤ◌, ◌-ℤ◌, ◌*ℤ◌, ◌<ℤ◌, ◌≤ℤ◌, neg_ℤ, pos, unsigned_abs};
ghost use Rattle.state_model.specs.Divisors.{IsBalanced, weight_product, unit_power, unit_weight_down};
ghost use Rattle.omega_ring.specs.Views.{weight_value};
ghost use Rattle.omega_ring.specs.Powers.{IsFirstPower};

use crate::weights::Weight;

/// A weight with twice the absolute value of y at most x, and the power of `3 + 2 sqrt(2)` that led to it.
#[derive(Clone, Copy, PartialEq, Eq, Debug, Drop)]
pub struct Balanced {
    /// The balanced weight.
    pub weight: Weight,
    /// The power that was multiplied with.
    pub power: i32,
}

impl Weight {
    /// The weight times `(3 + 2 sqrt(2))^power`, with twice the absolute value of y at most x.
    /// No power nearer to 0 balances it.
    pub fn balance(self) -> Balanced
        requires positive { pos 0 <ℤ self.x }
        requires small { self.x <ℤ pos (2 ^ 122) }
        requires real { (pos 2 *ℤ (self.y *ℤ self.y)) <ℤ (self.x *ℤ self.x) }
        ensures value { weight_value result.weight ≡ weight_product (weight_value self) (unit_power result.power) }
        ensures balanced { IsBalanced (weight_value result.weight) }
        ensures first { IsFirstPower (weight_value self) result.power }
    {
        if self.y < 0 {
            self.balance_up()
        } else {
            self.balance_down()
        }
    }

    fn balance_down(self) -> Balanced
        requires positive { pos 0 <ℤ self.x }
        requires small { self.x <ℤ pos (2 ^ 122) }
        requires real { (pos 2 *ℤ (self.y *ℤ self.y)) <ℤ (self.x *ℤ self.x) }
        requires sign { pos 0 ≤ℤ self.y }
        ensures value { weight_value result.weight ≡ weight_product (weight_value self) (unit_power result.power) }
        ensures balanced { IsBalanced (weight_value result.weight) }
        ensures first { IsFirstPower (weight_value self) result.power }
    {
        let low = step_down(self.x, self.y);
        Balanced {
            weight: Weight { x: low.x, y: low.y },
            power: -(low.steps as i32),
        }
    }

    fn balance_up(self) -> Balanced
        requires positive { pos 0 <ℤ self.x }
        requires small { self.x <ℤ pos (2 ^ 122) }
        requires real { (pos 2 *ℤ (self.y *ℤ self.y)) <ℤ (self.x *ℤ self.x) }
        requires sign { self.y <ℤ pos 0 }
        ensures value { weight_value result.weight ≡ weight_product (weight_value self) (unit_power result.power) }
        ensures balanced { IsBalanced (weight_value result.weight) }
        ensures first { IsFirstPower (weight_value self) result.power }
    {
        let low = step_down(self.x, -self.y);
        Balanced {
            weight: Weight {
                x: low.x,
                y: -low.y,
            },
            power: low.steps as i32,
        }
    }
}

/// A weight after some steps by `3 - 2 sqrt(2)`.
#[derive(Clone, Copy, Drop)]
struct Lowered {
    x: i128,
    y: i128,
    steps: u32,
}

/// Steps down while 2 y is greater than x.
fn step_down(x: i128, y: i128) -> Lowered
    requires positive { pos 0 <ℤ x }
    requires small { x <ℤ pos (2 ^ 122) }
    requires low { neg_ℤ (y +ℤ y) ≤ℤ x }
    requires real { (pos 2 *ℤ (y *ℤ y)) <ℤ (x *ℤ x) }
    ensures value { record { x = result.x; y = result.y }
        ≡ weight_product record { x = x; y = y } (unit_weight_down result.steps) }
    ensures balanced { IsBalanced record { x = result.x; y = result.y } }
    ensures done { (y +ℤ y) ≤ℤ x → result.steps ≡ 0 }
    ensures first { (k : ℕ) → k < result.steps
        → ¬ IsBalanced (weight_product record { x = x; y = y } (unit_weight_down k)) }
    ensures steps { pos (2 ^ result.steps) ≤ℤ (x +ℤ x) }
    ensures few { result.steps < 124 }
{
    if 2 * y <= x {
        Lowered { x, y, steps: 0 }
    } else {
        let next = Weight { x, y }.lowered();
        let rest = step_down(next.x, next.y);
        Lowered {
            x: rest.x,
            y: rest.y,
            steps: rest.steps + 1,
        }
    }
}
