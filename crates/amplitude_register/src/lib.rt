//! Registers of exact amplitudes: qubit numbers and a coefficient for each row of their bits, kept without
//! common divisors and balanced, so that the sum of squares of a register is the least of its state.
#![tactic(auto)]

mod balancing;
mod block;
mod bounds;
mod common;
mod controlled;
mod division;
mod divisor;
mod from_value;
mod fronts;
mod mixing;
mod normal;
mod passes;
mod register;
mod rows;
#[cfg(test)]
mod tests;
mod two_passes;
mod weighing;

pub use register::{Reduce, Register, TooLarge};
