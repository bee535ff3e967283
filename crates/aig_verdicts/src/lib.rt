//! Witness files of bad states and of justice properties, read and judged.
//!
//! Others call `judge_witness`, and `is_comment` for a line.
//!
//! The definition that matters most is `WitnessSays`.
#![tactic(auto)]

mod comment;
mod held;
pub mod laws;
mod reader;
mod verdict;
mod witness;

pub use crate::comment::is_comment;
pub use crate::verdict::WitnessVerdict;
pub use crate::witness::judge_witness;
