//! Each event does to the numbers of the contents what the machine does.
#![tactic(auto)]
