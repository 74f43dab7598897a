//! Lists by place, lists as queues, and what is in a list: the words that every crate above uses for them, with their
//! lemmas in `proofs/`. It has no code.
#![tactic(auto)]
