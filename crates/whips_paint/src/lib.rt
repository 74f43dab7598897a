//! The painted table of a merge of several views: which numbered transactions may be applied to the
//! warehouse, and which of them only together.
#![tactic(auto)]

mod bounds;
mod closure;
mod entry;
mod marks;
mod memory;
mod row;
mod table;

pub use memory::NoMemory;
pub use row::Row;
pub use table::Table;
