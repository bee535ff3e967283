//! What is left of an unrolled circuit for its bad states.
//!
//! Others call `reduce`, and before it `check_clauses`.
//!
//! The definitions that matter most are `IsReduced` and `GoesOver`.
#![tactic(auto)]

mod clauses;
pub mod laws;
mod reduction;

pub use crate::clauses::check_clauses;
pub use crate::reduction::reduce;
