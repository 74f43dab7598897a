//! What tests are made of, from slices: relations of pairs, views, setups, workloads and partial choices.
#![tactic(auto)]

mod lists;
mod rows;
mod setups;
mod steps;
mod views;

pub use lists::{numbers, texts, words};
pub use rows::{are_rows, no_pairs, pair_schema, pair_schemas, pairs, relations, schema};
pub use setups::{SetupParts, setup};
pub use steps::{Step, minus, plus, transaction, transactions, update, updates};
pub use views::{Parts, at, view, view_over, view_parts};
