//! Texts of lines that people write: their lines and words, and the numbers, bytes and addresses that words spell.
#![tactic(auto)]

mod fault;
mod line;
mod word;

pub use fault::LineFault;
pub use line::{Lines, content, is_passed_over};
pub use word::{address, hex_bytes, number, number_between, words};

#[cfg(test)]
mod tests;
