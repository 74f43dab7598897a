//! Tests alone: lists of actions, open queries, and a manager fed by hand with worked lists of messages, and what leaves it.
#![tactic(auto)]

#[cfg(test)]
mod actions;
#[cfg(test)]
mod feed;
#[cfg(test)]
mod messages;
#[cfg(test)]
mod queries;
#[cfg(test)]
mod runs;
#[cfg(test)]
mod views;
