//! Queries of one part of a view: which sources are asked, in steps, how a source extends partial choices of tuples,
//! and the rows that whole choices give.
#![tactic(auto)]

mod answers;
mod asks;
mod candidates;
mod choice;
mod rows;

pub use answers::{extend, extend_on};
pub use asks::{Ask, Reply, Step, steps};
pub use choice::{Partial, Partials};
pub use rows::project;
