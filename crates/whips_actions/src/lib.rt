//! Action lists: what a manager has done to a view's rows, and the rows after it.
#![tactic(auto)]

mod action;
mod edit;

pub use action::{Action, ActionList, Actions};
pub use edit::{apply, apply_in, apply_to};
