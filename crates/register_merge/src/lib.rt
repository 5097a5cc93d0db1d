//! Products of two registers: whether one has room and a size that fits, and its preparation.
#![tactic(auto)]

mod merging;
mod rows;
#[cfg(test)]
mod tests;
mod verdicts;

pub use merging::prepare_merge;
pub use verdicts::{Merge, verdict};
