//! Invariants of circuits, by which no run ever reaches a bad state.
//!
//! An invariant (a PLA, as ABC's pdr writes it) is a list of cubes of latches that no state of a
//! run is to meet. From it and the model one circuit is made, in which a bad state can be 1 exactly
//! where the invariant does not show what it should. A refutation of the clauses of that is a proof
//! that no bad state of the model is ever reached; the invariant is not believed.
//!
//! Others call `with_invariant` with a circuit and a source.
//!
//! The definitions that matter most are `with_invariant` and `InvariantsMeanNever`.
#![tactic(auto)]

mod growth;
pub mod laws;
mod reader;
mod row;

pub use crate::reader::with_invariant;
