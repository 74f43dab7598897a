//! The Strobe manager of one view as data: its open queries and its action list, what it does with a transaction and with a
//! reply, and the invariant that ties it to the relations.
#![tactic(auto)]
