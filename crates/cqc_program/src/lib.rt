//! A cursor over one COMMAND or FACTORY message: its commands, one after the other, as its plan has them. No call
//! takes memory.
#![tactic(auto)]

mod round;
#[cfg(test)]
mod tests;
mod walk;

pub use cqc_wire::{BodyFault, Command, Instr};
pub use walk::Walk;
