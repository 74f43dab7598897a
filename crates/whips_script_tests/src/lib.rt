//! Tests alone: scripts that are read, checked or refused, and whole runs on texts in memory.
#![tactic(auto)]

#[cfg(test)]
mod check;
#[cfg(test)]
mod made;
#[cfg(test)]
mod refusals;
#[cfg(test)]
mod run;
#[cfg(test)]
mod schedules;
#[cfg(test)]
mod script;
