//! Many connections over one core: in every order of turns, or each in a thread of its own.
#![tactic(auto)]

mod actor;
mod in_memory;
mod jobs;
mod post;
mod record;
mod serving;
mod shared;
mod told;
mod turns;
mod worker;

pub use actor::{Actor, Shown};
pub use in_memory::replay_in_memory;
pub use post::{Post, Posted};
pub use record::{Record, Served, WorkerEnd};
pub use schedule::{Planned, Schedule, ScheduleFault, ScheduleRead, Why, read_schedule};
pub use serving::serve;
pub use shared::serve_session;
pub use told::Told;
pub use turns::replay;
pub use worker::READ_LIMIT;

#[cfg(test)]
mod carrying_tests;
#[cfg(test)]
mod crossing_tests;
#[cfg(test)]
mod serving_tests;
#[cfg(test)]
mod tests;
