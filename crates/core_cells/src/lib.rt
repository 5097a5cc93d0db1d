//! The cells of the core: what nodes hold, what is free, and the registers; and boards, which lend them.
#![tactic(auto)]

mod board;
mod cells;
mod lent;
mod marks;
mod names;
mod owned;
mod pool;
mod slice;
mod step;
#[cfg(test)]
mod tests;

pub use board::Board;
pub use cells::{NodePair, PoolPair, SlotCell};
pub use lent::{end_all, held_node, held_pool, prepare_node, prepare_pool};
pub use names::{CellName, Ending};
pub use owned::OwnedCells;
pub use pool::PoolCell;
pub use slice::two_of;
pub use step::{PairStep, SlotStep, on_slot, on_two};
