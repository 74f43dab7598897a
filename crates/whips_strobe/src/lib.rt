//! The Strobe manager of a joined view: it keeps the view right while answers race with updates, without a copy of any base
//! relation.
#![tactic(auto)]

mod fits;
mod manager;
mod routed;
mod state;
mod strike;

pub use manager::{Manager, Out};
