//! A store of versioned rows in plain memory: a vector of views, each with a slot for all versions
//! of a row.
#![tactic(auto)]

mod first;
mod plain;
mod views;

pub use plain::Plain;
