//! Tests alone: sources and sinks in memory and over streams, and the lines of records.
#![tactic(auto)]

#[cfg(test)]
mod io;
#[cfg(test)]
mod report;
