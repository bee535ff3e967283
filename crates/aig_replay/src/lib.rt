//! The search along a run for a bad state that is reached, and the witness that is written of it.
//!
//! A solver's answer is not believed: the circuit is run with its inputs.
//!
//! Others call `with_selected_bad`, which takes one bad state of a circuit alone; `find_witness`,
//! which reads a solver's answer and finds the run; and parts of that, `find_run` and
//! `put_witness`.
//!
//! The definitions that matter most are `ReachedBy`, `hit_from` and `witness_text`.
#![tactic(auto)]

mod alone;
mod answer;
mod found;
pub mod laws;
mod search;
mod start;
mod writer;

pub use crate::alone::with_selected_bad;
pub use crate::found::{FoundWitness, find_witness};
pub use crate::search::{Hit, find_hit};
pub use crate::start::{FoundRun, find_run};
pub use crate::writer::{HeldSteps, put_line, put_witness};
