//! Exact amplitudes: whole numbers with an eighth root of unity, their weights, and greatest common
//! divisors. No call takes memory, and no sum or product leaves 128 bits.
#![tactic(auto)]

mod arithmetic;
mod balancing;
mod coefficients;
mod delta;
mod euclid;
mod lanes;
mod roots;
mod signs;
mod units;
mod weights;

pub use arithmetic::{half_of, is_even};
pub use balancing::Balanced;
pub use coefficients::{Omega, Wide};
pub use euclid::gcd_of;
pub use lanes::{add_lanes, any_odd, weigh_lanes};
pub use signs::Sign;
pub use weights::Weight;

#[cfg(test)]
mod tests;
