//! The views of a script: each is read exactly, as what it is or as the first refusal in it.
#![tactic(auto)]

mod choice;
mod columns;
mod keys;
mod relations;
mod view;

pub use view::{Basis, ViewForm, read_view};
