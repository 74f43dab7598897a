//! A buffer of rows that takes all its memory when it is made, so that a reader needs none later.
#![tactic(auto)]

mod buffer;
mod line;

pub use buffer::RowBuf;
