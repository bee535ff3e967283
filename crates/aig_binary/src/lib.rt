//! Binary AIGER files: deltas, the reader and the writer of circuits in binary order. Files of
//! either kind, ASCII or binary, are read here too.
//!
//! Others call `read_file`, which reads a file of either kind, and `read_source`, which reads a
//! source to its end, a part at a time; `read_binary` and `write_binary`; `aig_unroll` also calls
//! `put_gates`, `aig_convert` also `put_binary`.
//!
//! The definitions that matter most are `IsFileOf`, `IsBinaryText`, `first_binary_fault` and
//! `binary_text`.
#![tactic(auto)]

mod delta;
mod file;
mod gates;
pub mod laws;
mod pieces;
mod reader;
mod source;
mod writer;

pub use crate::delta::{Delta, get_delta, put_delta};
pub use crate::file::read_file;
pub use crate::reader::{BINARY_WORD, read_binary};
pub use crate::source::read_source;
pub use crate::writer::{put_binary, put_gates, write_binary};
pub use aig_core::{Ordered, is_in_binary_order};
pub use aig_text::Limits;
