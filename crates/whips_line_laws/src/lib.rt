//! The order in which the merge takes the lists of each view.
#![tactic(auto)]
