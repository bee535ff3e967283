//! Clauses of a circuit without latches, where a multiplexer has four in place of the nine of its
//! three gates.
#![tactic(auto)]

mod check;
mod clauses;
mod cut;
mod finder;
pub mod laws;
mod plan;

pub use crate::check::is_cut;
pub use crate::clauses::write_cut_clauses;
pub use crate::cut::{Cut, Multiplexer};
pub use crate::plan::cuts_of;
