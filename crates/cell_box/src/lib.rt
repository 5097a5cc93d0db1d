//! A value on the heap, so that it is moved by its address: what a contract sees of it is the value alone.
#![tactic(auto)]

mod cell_box;
#[cfg(test)]
mod tests;

pub use cell_box::CellBox;
