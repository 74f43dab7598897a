//! Tests alone: parts of a script that are read, and each refusal with its code and its place.
#![tactic(auto)]

#[cfg(test)]
mod plan;
#[cfg(test)]
mod refused;
#[cfg(test)]
mod views;
