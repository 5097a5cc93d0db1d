//! The core: many qubits in registers that are merged when a gate of two qubits needs it and split when one is
//! measured, with exactly the replies of one undivided state vector.
#![tactic(auto)]

#[cfg(test)]
mod call_tests;
mod ending;
mod gates;
pub mod laws;
mod measurements;
mod needs;
mod new_qubits;
mod pairs;
mod preparation;
mod prepared;
mod ranges;
mod refusals;
mod slots;
mod solo;
#[cfg(test)]
mod solo_tests;
mod transfers;
mod two_qubit_gates;
mod whole;

pub use core_cells::{Board, CellName, NodePair, PoolCell, PoolPair, SlotCell};
pub use ending::{finish, undo};
pub use needs::{Needs, call_needs};
pub use network_model::{Call, CoreReply, Entry, JournalFull};
pub use preparation::prepare;
pub use prepared::Prepared;
pub use solo::Solo;
pub use whole::Core;
