//! One journal for cells that lie behind locks of their own: each commit is one entry of one legal history, and a
//! stamp tells whether a cell fits the whole of it.
#![tactic(auto)]

mod cells;
mod commits;
mod comparing;
mod entering;
mod fault;
mod journal;
mod laws;
mod pass;
mod stamped;

pub use cells::{Cells, Framed};
pub use commits::{commit, forget_all, glance};
pub use fault::{CommitFault, Stale};
pub use journal::Journal;
pub use laws::next_values_depend_on_touched_cells;
pub use pass::Pass;
pub use stamped::Stamped;

#[cfg(test)]
mod tests;
