//! Settings of a network, as a text says them in TOML, or plain ones.
#![tactic(auto)]

mod key;
mod nodes;
mod place;
mod plain;
mod settings;
mod value;

pub use key::Key;
pub use plain::plain_settings;
pub use settings::{Settings, SettingsFault, read_settings};

#[cfg(test)]
mod tests;
