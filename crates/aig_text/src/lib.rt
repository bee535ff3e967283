//! ASCII AIGER files: their header, sections and tail, the reader and the writer.
//!
//! Others call `read_ascii`, `write_ascii`, and the parts that binary files have in common with ASCII
//! files. They also reach by this name what lines of numbers are made of (`aig_rows`).
//!
//! The definitions that matter most are `IsAsciiText`, `first_ascii_fault` and `ascii_text`.
#![tactic(auto)]

mod comment;
mod header_line;
pub mod laws;
mod limits;
mod parts;
mod pieces;
mod piecewise;
mod reader;
mod section;
mod tail_lines;
mod writer;

pub use crate::comment::{Uncommented, last_bytes};
pub use crate::header_line::{ASCII_WORD, HEADER_LEAST, HEADER_NUMBERS, Header};
pub use crate::limits::Limits;
pub use crate::parts::{first_word_is, header, tail};
pub use crate::pieces::{AsciiReader, LineReader};
pub use crate::piecewise::{Pieces, fetch_all, fetch_piece, read_rest};
pub use crate::reader::{check_read, empty_circuit, read_ascii};
pub use crate::section::{Format, SECTIONS, Section};
pub use crate::writer::{
    NumberedLine, header_numbers, put_header, put_lines, put_literal_sections, put_numbers,
    put_tail, reset_number, write_ascii,
};
pub use aig_rows::{CANNOT_READ, CANNOT_WRITE, Message, OUT_OF_MEMORY, canonical_number};
