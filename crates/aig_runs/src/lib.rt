//! The traces of many runs, without texts.
//!
//! Others call `simulate_batch`.
#![tactic(auto)]

mod alone;
mod batch;
mod stimuli;
mod traces;

pub use crate::batch::simulate_batch;
