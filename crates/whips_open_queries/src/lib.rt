//! The open queries of a manager, over one list of deletions.
#![tactic(auto)]

mod queries;

pub use queries::Queries;
