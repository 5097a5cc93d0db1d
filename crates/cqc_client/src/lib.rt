//! A client of a node: talks over the messages of a script, and the drill, a large valid input that is made from a number.
#![tactic(auto)]

mod due;
mod hearing;
mod lines;
mod outcomes;
mod plan;
mod printed;
mod stops;
mod talking;

pub use outcomes::Tally;
pub use plan::{DrillPlan, drill};
pub use printed::Summary;
pub use script::{Message, ScriptFault, ScriptRead, ScriptWhy, read_script};
pub use talking::{Talked, talk};

#[cfg(test)]
mod talk_tests;
#[cfg(test)]
mod tally_tests;
#[cfg(test)]
mod tests;
