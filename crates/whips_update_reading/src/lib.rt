//! The sources of a script: their relations and their transactions, read as they stand, the first fault refused.
#![tactic(auto)]

mod row;
mod source;
mod target;
mod update;

pub use source::{Sources, read_sources};
pub use target::{Change, Target};
pub use update::{Scope, Work};
