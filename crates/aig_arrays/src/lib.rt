//! Circuits as arrays: words of 32 bits and bytes, as programs in C have them.
//!
//! Others call `Counts`, how many of each a circuit has; `counts_of`, `put_words` and `put_bytes`,
//! which make arrays of a circuit; `numbered_image`, its binary image with the new numbers of its
//! variables; and `read_arrays`, which makes a circuit of arrays or reports their first fault.
//!
//! The definitions that matter most are `circuit_words`, `circuit_bytes` and `decoded`.
#![tactic(auto)]

mod counts;
mod decoded;
mod entries;
pub mod laws;
mod numbered;
mod put;
mod sections;
mod symbols;

pub use crate::counts::Counts;
pub use crate::decoded::read_arrays;
pub use crate::numbered::numbered_image;
pub use crate::put::{counts_of, put_bytes, put_words};
