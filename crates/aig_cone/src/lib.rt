//! Cones: the variables on which literals depend (cone of influence).
//!
//! Others call `cone_of`, which finds them, within a step or over all steps, and `count_inputs`,
//! `count_latches` and `count_gates`, which count what a cone has. The definition that matters most
//! is `IsInCone`.
#![tactic(auto)]

mod counts;
mod found;
mod places;
mod search;

pub use crate::counts::{count_gates, count_inputs, count_latches};
pub use crate::search::{Reach, cone_of};
