//! A store of versioned rows in plain memory: so far the store of one view.
#![tactic(auto)]

mod change;
mod need;
mod view;

pub use view::PlainView;
