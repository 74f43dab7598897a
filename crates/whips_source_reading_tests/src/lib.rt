//! Tests alone: what is read of a script's sources, and tables of what is refused, each with its code and its place.
#![tactic(auto)]

#[cfg(test)]
mod sources;
