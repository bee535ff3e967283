//! One step of a circuit that a caller has as words in order.
//!
//! Others call `step`, which takes no memory and keeps nothing, and `values_length`.
//!
//! The definitions that matter most are `TellsNumbered` and `IsStepped`.
#![tactic(auto)]

mod evaluate;
mod numbered;
mod one_step;
mod sections;

pub use crate::one_step::{step, values_length};
