//! A store of versioned rows whose words stand on a board, where readers load them with no lock.
#![tactic(auto)]

mod board_store;
mod board_words;
mod changes;

pub use board_store::BoardStore;
