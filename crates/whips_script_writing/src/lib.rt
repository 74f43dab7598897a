//! Writes a script as its canonical text: the compact JSON text of its data.
#![tactic(auto)]

mod labels;
mod relation;
mod schedule;
mod script;
mod source;
mod text;
mod update;
mod view;

pub use script::canonical_text;
