//! Relations of a script: their names, columns, keys and initial rows, read as they stand, the first fault refused.
#![tactic(auto)]

mod columns;
mod key;
mod relation;
mod rows;

pub use relation::{RelationForm, read_relation_name, read_relations};
pub use rows::read_values;
