//! Virtual nodes: where they listen, which qubits their applications hold, and which wait there. No call takes memory.
#![tactic(auto)]

mod arrival;
mod cell;
mod shape;
#[cfg(test)]
mod tests;

pub use arrival::{Arrival, Look};
pub use cell::NodeCell;
pub use network_model::{Line, Place};
pub use shape::{NODES, Shape};
