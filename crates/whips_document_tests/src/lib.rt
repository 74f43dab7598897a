//! Tests alone: whole documents that are read as scripts, and refusals of which one comes before others.
#![tactic(auto)]

#[cfg(test)]
mod canonical;
#[cfg(test)]
mod documents;
