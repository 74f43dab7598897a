//! Tests alone: the painted table, and the merge with the rows, lists and cuts of what it hands out.
#![tactic(auto)]

#[cfg(test)]
mod merge;
#[cfg(test)]
mod table;
