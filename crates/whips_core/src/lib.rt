//! The core: the stages with the queues between them, an event at a time, under the theorem of `whips_core_laws`.
#![tactic(auto)]

mod changes;
mod cores;
mod order;
mod pipeline;
mod queues;

pub use cores::{Core, CoreStep};
pub use pipeline::Pipeline;
pub use queues::{Announced, Asks, Input, ManagerQueues, Numbered, SourceQueues};
