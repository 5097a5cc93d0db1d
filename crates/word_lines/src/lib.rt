//! The lines of words that the program takes.
#![tactic(auto)]

mod asked;
mod command;
mod reader;

pub use asked::Asked;
pub use network_model::Place;
pub use reader::read_words;

#[cfg(test)]
mod tests;
