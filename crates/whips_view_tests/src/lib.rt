//! Tests alone: views and their refusals, queries, setups and workloads, a source, and the integrator.
#![tactic(auto)]

#[cfg(test)]
mod joins;
#[cfg(test)]
mod order;
#[cfg(test)]
mod query;
#[cfg(test)]
mod setup;
#[cfg(test)]
mod source;
#[cfg(test)]
mod view;
#[cfg(test)]
mod work;
