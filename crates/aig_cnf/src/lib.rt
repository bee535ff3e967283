//! Circuits as clauses, for SAT solvers.
//!
//! Others call `put_gates_clauses` and the other parts of a DIMACS text.
//!
//! The definitions that matter most are `Satisfies`, `step_clauses`, `bad_clauses` and `cnf_text`.
#![tactic(auto)]

pub mod laws;
mod lines;
mod variable_text;
mod writer;

pub use crate::writer::{
    put_clause, put_clause_end, put_clauses_header, put_gates_clauses, put_literals,
};
