//! The cells of the core as the journal of a hub has them, by one numbering; and what prepared steps leave in held cells.
#![tactic(auto)]

mod cell;
mod laws;
#[cfg(test)]
mod tests;

pub use cell::Cell;
pub use laws::prepared_steps_have_entries;
