//! One connection: its bytes as a function of the core's replies.
#![tactic(auto)]

mod allowance;
mod message;
mod next;
mod over_core;
mod part;
mod program;
mod reply;
mod session;
mod solo;
mod stage;
mod take;
#[cfg(test)]
mod tests;
mod turn;

pub use over_core::{Core, serve};
pub use session::Session;
pub use session_model::Ending;
pub use solo::serve_solo;
pub use stage::Stage;
pub use turn::Turn;
