//! The program `whips` as a function of its words, its input and its output.
#![tactic(auto)]

mod answers;
mod checks;
mod commands;
mod made;
mod runs;
mod sources;
mod top;
mod writing;

pub use commands::Command;
pub use sources::sources_of;
pub use top::{Ended, run};
