//! Rows: lines of numbers, how they are spelled and what they mean.
//!
//! Others call `read_first_rows`, which adds what the next lines mean to a list; and `leading_number`,
//! `more_numbers` and `ends_line`, to read other lines. Callers of `aig_text` reach most of these
//! by that name.
//!
//! The definitions that matter most are `IsRowLine` and `rows_at`.
#![tactic(auto)]

pub mod laws;
mod number;
mod row;
mod rows;
mod word;

pub use crate::number::{canonical_number, ends_line, leading_number, more_numbers};
pub use crate::row::{FromRow, NextState};
pub use crate::rows::{Due, read_first_rows};
pub use aig_fault::Message;

/// What is said where memory was refused.
pub const OUT_OF_MEMORY: &str = "out of memory";

/// What is said where a source failed.
pub const CANNOT_READ: &str = "cannot read";

/// What is said where a sink failed.
pub const CANNOT_WRITE: &str = "cannot write";
