//! The sessions and the schedule of a script: each is read exactly, as what it is or as the first refusal in it.
#![tactic(auto)]

mod decimal;
mod event;
mod names;
mod plan;
mod schedule;
mod sessions;

pub use decimal::decimal_within;
pub use names::Names;
pub use plan::{PlanForm, read_plan};
pub use schedule::read_schedule;
pub use sessions::read_sessions;
