//! The integrator: it gives the transactions of all sources one order, and names the views that each concerns.
#![tactic(auto)]

mod integrator;
mod message;

pub use integrator::Integrator;
pub use message::{Forward, Message};
