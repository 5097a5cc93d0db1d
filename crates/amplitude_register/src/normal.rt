//! Weights of lists, and lists without common divisors and with a balanced weight.
ghost use Rattle.std.specs.Prelude.{◌≡◌, ◌≤◌, ◌^◌, ◌<ℤ◌, pos, length, take};
ghost use Rattle.state_model.specs.CoefficientList.{IsScaled, IsNonzero, IsNormal, HasDeltaDivisors, total_weight};
ghost use Rattle.omega_ring.specs.Views.{omega_values, weight_value};

use crate::balancing::balance;
use crate::division::divide_out;
use omega_ring::{Omega, Weight};

/// The sum of the weights.
pub(crate) fn list_weight(list: &[Omega]) -> Weight
    requires { (total_weight (omega_values list.now)).x <ℤ pos (2 ^ 122) }
    ensures { weight_value result ≡ total_weight (omega_values list.now) }
{
    let mut x: i128 = 0;
    let mut y: i128 = 0;
    for z in list {
        let weight = z.wide().weight();
        x += weight.x;
        y += weight.y;
    }
    Weight { x, y }
}

/// Divides by all common divisors but units and balances, and gives the weight.
pub(crate) fn normalize(list: &mut [Omega], weight: Weight) -> Weight
    requires weight { weight_value weight ≡ total_weight (omega_values list.old) }
    requires nonzero { IsNonzero (omega_values list.old) }
    requires small { weight.x <ℤ pos (2 ^ 122) }
    requires divisors { HasDeltaDivisors (omega_values list.old) }
    ensures weight { weight_value result ≡ total_weight (omega_values list.new) }
    ensures scaled { IsScaled (omega_values list.new) (omega_values list.old) }
    ensures normal { IsNormal (omega_values list.new) }
{
    let rest = divide_out(list, weight);
    balance(list, rest)
}

/// The same at the front of a list.
pub(crate) fn normalize_part(list: &mut [Omega], rows: usize, weight: Weight) -> Weight
    requires rows { rows ≤ length list.old }
    requires weight { weight_value weight ≡ total_weight (omega_values (take rows list.old)) }
    requires nonzero { IsNonzero (omega_values (take rows list.old)) }
    requires small { weight.x <ℤ pos (2 ^ 122) }
    requires divisors { HasDeltaDivisors (omega_values (take rows list.old)) }
    ensures weight { weight_value result ≡ total_weight (omega_values (take rows list.new)) }
    ensures scaled { IsScaled (omega_values (take rows list.new)) (omega_values (take rows list.old)) }
    ensures normal { IsNormal (omega_values (take rows list.new)) }
{
    normalize(&mut list[..rows], weight)
}

/// The same at the front of a buffer.
pub(crate) fn normalize_front(entries: &mut Vec<Omega>, rows: usize, weight: Weight) -> Weight
    requires rows { rows ≤ length entries.old.items }
    requires weight { weight_value weight ≡ total_weight (omega_values (take rows entries.old.items)) }
    requires nonzero { IsNonzero (omega_values (take rows entries.old.items)) }
    requires small { weight.x <ℤ pos (2 ^ 122) }
    requires divisors { HasDeltaDivisors (omega_values (take rows entries.old.items)) }
    ensures room { length entries.new.items ≡ length entries.old.items }
    ensures weight { weight_value result ≡ total_weight (omega_values (take rows entries.new.items)) }
    ensures scaled { IsScaled (omega_values (take rows entries.new.items)) (omega_values (take rows entries.old.items)) }
    ensures normal { IsNormal (omega_values (take rows entries.new.items)) }
{
    normalize_part(entries, rows, weight)
}

/// The weight of the front of a buffer.
pub(crate) fn front_weight(entries: &Vec<Omega>, rows: usize) -> Weight
    requires rows { rows ≤ length entries.now.items }
    requires small { (total_weight (omega_values (take rows entries.now.items))).x <ℤ pos (2 ^ 122) }
    ensures { weight_value result ≡ total_weight (omega_values (take rows entries.now.items)) }
{
    list_weight(&entries[..rows])
}
