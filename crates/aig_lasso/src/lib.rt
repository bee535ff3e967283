//! Justice and fairness: lassos, and the runs without end that they stand for.
//!
//! Others call `with_goals`, for the circuit that shows the goals of a justice property, and
//! `judge_lasso`, which tells whether a run of that is a lasso.
//!
//! The definitions that matter most are `IsLassoVerdict`, `IsRunVerdict` and `IsFairRun`.
#![tactic(auto)]

mod goals;
mod held;
mod judge;
pub mod laws;
mod search;
mod start;
mod verdict;

pub use crate::goals::{count_goals, with_goals};
pub use crate::held::{HeldRun, says_step};
pub use crate::judge::judge_lasso;
pub use crate::verdict::LassoVerdict;
