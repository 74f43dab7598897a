//! The pipeline with its contents: what each stage holds, what each event does to it, and its numbers.
#![tactic(auto)]
