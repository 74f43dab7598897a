//! The merge: it holds the action lists of all views until they can change together, in an order that every cut respects.
#![tactic(auto)]

mod form;
mod lists;
mod merge;
mod paint;

pub use lists::{ActionLists, Numbers, Transaction};
pub use merge::Merge;
