//! Scripts of a client: the messages that it sends, as a text says them.
#![tactic(auto)]

mod draft;
mod fault;
mod operands;
mod reader;
mod verb;

pub use fault::{ScriptFault, ScriptWhy};
pub use reader::{Message, ScriptRead, read_script};

#[cfg(test)]
mod tests;
