//! A board that owns the cells of some numbers: at most three nodes, the pool or not, and at most three slots.
#![tactic(auto)]

mod board;
mod seat;
mod seats;
#[cfg(test)]
mod tests;

pub use board::HeldBoard;
