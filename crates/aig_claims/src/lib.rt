//! The run that a witness file claims: the circuit that starts in its first state, and its dump.
//!
//! Others call `started_by`, and `mark_loop` for the loop of a lasso. The definitions stand below
//! whoever makes the dump and whoever states what it is for a file, so that neither waits for the
//! other.
//!
//! The definitions that matter most are `IsRunDump` and `IsWitnessDump`.
#![tactic(auto)]

pub mod laws;
mod loop_mark;
mod started;

pub use crate::loop_mark::mark_loop;
pub use crate::started::started_by;
