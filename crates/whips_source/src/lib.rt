//! A source: it makes its transactions one after another, and answers a step of a query at a time on its own relations
//! as they are then.
#![tactic(auto)]

mod held;
mod made;
mod site;

pub use held::Held;
pub use site::{LogEntry, Site};
