//! Schedules: connections with their input, and the order of their turns, as a text says them.
#![tactic(auto)]

mod lines;
mod plans;
mod reader;

pub use plans::{Planned, Schedule, ScheduleFault, ScheduleRead, Why};
pub use reader::read_schedule;

#[cfg(test)]
mod tests;
