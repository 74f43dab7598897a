//! Tests alone: picks, events, tuples and relations, net changes, buffers of rows, values of views, versioned records and
//! boards.
#![tactic(auto)]

#[cfg(test)]
mod board;
#[cfg(test)]
mod net;
#[cfg(test)]
mod rel;
#[cfg(test)]
mod row_buf;
#[cfg(test)]
mod small;
#[cfg(test)]
mod value;
#[cfg(test)]
mod vnl;
