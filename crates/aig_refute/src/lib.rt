//! Refutations of clauses, checked.
//!
//! A refutation (DRAT, as text or binary, or LRAT as text) adds clauses one after the other, each of
//! which follows from those before it, or brings in a variable, up to one that no assignment
//! satisfies. Here a clause is added only where unit propagation shows that it follows, or that its
//! first literal, if no clause of the model has it, can be made true. So the refutation is not
//! believed, and neither are the hints of LRAT: they tell which clauses are looked at first.
//!
//! Others call `check_refutation` with a circuit and a source; or parts of that, a `Checker`, which
//! is given clauses over the literals below `literals_of` a circuit, and `read_refutation`.
//!
//! The definitions that matter most are `Admits` and `RefutationSays`.
#![tactic(auto)]

mod checker;
mod clause_numbers;
mod clause_table;
mod comparer;
mod gate_places;
mod gates;
mod kernel;
mod moving;
mod propagation;
mod reader;
mod reading;
mod store;
mod watches;
mod words;

pub use crate::checker::Checker;
pub use crate::reader::{RefutationFormat, RefutationReader};
pub use crate::reading::{check_refutation, literals_of, read_refutation};
