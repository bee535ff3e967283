//! The unroller: copies of a circuit in time, as one circuit without latches.
//!
//! Others call `Unrolling`, which writes the unrolled circuit or its clauses frame by frame and
//! never holds it, and `unroll`, which makes it as a whole.
//!
//! The definitions that matter most are `unrolled`, `IsUnrolled` and `side_by_side`.
#![tactic(auto)]

mod frames;
pub mod laws;
mod substitution;
mod unroller;
mod unrolling;
mod writing;

pub use crate::unroller::Unrolling;
pub use crate::unrolling::unroll;
