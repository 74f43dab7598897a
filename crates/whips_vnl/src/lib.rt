//! Versioned records of rows, read without locks: what a record shows at a version, when a version
//! is stale, and the record after a change.
#![tactic(auto)]

mod reading;
mod record;
mod staleness;

pub use reading::{live_versions_are_kept, shown};
pub use record::{Op, Shown, Vrec, Vstep, changed};
pub use staleness::{stale, unexpired_versions};
