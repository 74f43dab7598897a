//! Tests alone: a core takes events in orders that are worked by hand.
#![tactic(auto)]

#[cfg(test)]
mod cases;
#[cfg(test)]
mod runs;
