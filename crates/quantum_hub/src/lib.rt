//! A network behind locks of its own for each node, for what is free and for each register, and one journal for all:
//! calls from many threads are the entries of one legal history.
#![tactic(auto)]

mod board;
#[cfg(test)]
mod cell_tests;
mod executing;
mod gathering;
mod hints;
mod hub;
mod looks;
mod making;
mod moves;
mod opening;
#[cfg(test)]
mod site;
#[cfg(test)]
mod stories;
#[cfg(test)]
mod thread_tests;
mod tries;
#[cfg(test)]
mod wait_tests;

pub use commit_journal::{Framed, Pass};
pub use hub::{Closed, Hub, Opened};
