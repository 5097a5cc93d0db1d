//! The handles of a node: which application holds which qubit under which id. No call takes memory.
#![tactic(auto)]

mod handles;
#[cfg(test)]
mod tests;

pub use handles::{HANDLES, Handle, Handles};
