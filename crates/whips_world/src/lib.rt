//! The run of a script: the events of its schedule and then those that drain it, of the core and of reader sessions, and
//! the records of what they brought, told one at a time.
#![tactic(auto)]

mod events;
mod lines;
mod picks;
mod readers;
mod runs;
mod schedule;

pub use runs::{Ran, run};
pub use schedule::Schedule;
