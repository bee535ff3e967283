//! Witness files, and how they are judged.
//!
//! Others call `confirm`; for values, `is_one` and `are_ones`; and, to read more kinds of witness
//! files, `Checker` and `property_by`.
//!
//! The definition that matters most is `IsVerdict`.
#![tactic(auto)]

mod checker;
pub mod laws;
mod search;
mod verdict;
mod witness;
mod witness_line;

pub use crate::checker::{Checker, are_ones, is_one};
pub use crate::verdict::Verdict;
pub use crate::witness::confirm;
pub use crate::witness_line::property_by;
