//! Stores of versioned rows: what one keeps, what its calls do to it, and a reader's side of it.
//!
//! One maintenance writer changes the rows, a transaction at a time, while sessions read older
//! versions. The definitions say what a store is as data, so they hold of each way to keep it.
#![tactic(auto)]

mod changes;
mod error;
mod look;
mod store;

pub use changes::Changes;
pub use error::StoreErr;
pub use look::{Look, PlainLook};
pub use store::Store;
