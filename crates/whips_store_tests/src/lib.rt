//! Tests alone: an index of slots, a plain view, and runs of stores of two views, with a reader's looks and sessions.
#![tactic(auto)]

#[cfg(test)]
mod index;
#[cfg(test)]
mod looks;
#[cfg(test)]
mod plain_view;
#[cfg(test)]
mod readers;
#[cfg(test)]
mod rows;
#[cfg(test)]
mod runs;
#[cfg(test)]
mod start;
#[cfg(test)]
mod transactions;
