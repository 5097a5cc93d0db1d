//! The gates on a register. Gates that only move, negate or turn rows are applied to a copy of the value;
//! the others are sums and differences of rows between turns, and are reduced and balanced once at the end.
#![tactic(auto)]

mod kernels;
#[cfg(test)]
mod tests;
mod twos;

pub use kernels::prepare_one;
pub use state_model::{Gate, Two};
pub use twos::prepare_two;
