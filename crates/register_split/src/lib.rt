//! What a measurement takes of a register: the weights that decide its outcome, and the rows that stay.
#![tactic(auto)]

mod removal;
mod rows;
mod sums;
#[cfg(test)]
mod tests;

pub use removal::prepare_take_out;
pub use sums::{Split, weights};
