//! One history that only grows: a word with its length, the pen that appends, and fronts, which are prefixes of it.
#![tactic(auto)]

mod front;
mod history;
mod named;
mod pen;
mod plays;
mod track;

pub use front::Front;
pub use history::{Begun, Blank, History};
pub use named::Named;
pub use pen::Pen;
pub use track::{Law, Track};

#[cfg(test)]
mod tests;
