//! Answers of SAT solvers, read as they come.
//!
//! Others call `Reader`, which `read_values` moves on over bytes and which says at the end what the
//! answer is. Where each byte leads is defined for any text. Values as solvers spell them, and
//! comments, are read at once.
//!
//! The definitions that matter most are `after` and `AnswersAreRead`.
#![tactic(auto)]

pub mod laws;
mod reader;
mod values;

pub use crate::reader::{Move, Reader, Signed, Spot, Status};
pub use crate::values::read_values;
