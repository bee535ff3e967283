//! Refutations of the clauses of a circuit in which a multiplexer has four, checked.
//!
//! Others call `check_cut_refutation` with a plan, a circuit and a source.
//!
//! The definition that matters most is `CutRefutationSays`.
#![tactic(auto)]

mod clauses;
mod reading;

pub use crate::reading::check_cut_refutation;
