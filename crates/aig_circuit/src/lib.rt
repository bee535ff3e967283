//! What an AIGER file says, as data: literals, circuits and symbols, and when a circuit is in form
//! and well formed.
//!
//! Others call `Circuit::in_form`, which checks part by part what can be seen without comparing
//! definitions and uses; `Symbols` and `Listing`, of which circuits are made; and `Val`, the three
//! values. `aig_core` reaches all of this by name, but for `Entry`, `Uses`, `literal_lists` and
//! `definition_count`, which the crates below it call.
//!
//! The definition that matters most is `IsWellFormed`.
#![tactic(auto)]

mod circuit;
mod entry;
mod form;
pub mod laws;
mod listing;
mod literal;
mod symbols;
mod value;

pub use crate::circuit::{Circuit, Gate, Justice, Kind, LARGEST, Latch, Reset, Symbol};
pub use crate::entry::{Entry, Uses};
pub use crate::listing::Listing;
pub use crate::literal::{Lit, Var};
pub use crate::symbols::{BorrowedSymbol, EachSymbol, Symbols};
pub use crate::value::Val;
pub use aig_memory::OutOfMemory;
