//! Reads a script: the bytes of a JSON text become relations, transactions, views, sessions and events, or are refused
//! with the code and the place of the first fault.
#![tactic(auto)]

mod script;
mod views;

pub use script::{Script, ScriptParts, read_script};
pub use whips_reading::{Code, ReadErr, Refusal, Text};
