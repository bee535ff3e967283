//! Runs that reach a bad state, and what satisfies the clauses of the unrolled circuit.
//!
//! This crate has definitions and laws, and no code that runs.
//!
//! The definitions that matter most are `cut_claim` and `SatisfiableExactlyWhereReached`.
#![tactic(auto)]

pub mod laws;
