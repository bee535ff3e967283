//! The simulator: steps of a circuit, the trace text of a stimulus, and witness files.
//!
//! Others call `simulate`, which takes a stimulus as it comes; `simulate_batched`, which reads it
//! to its end and steps runs side by side; `confirm`, which judges a witness file; and, without
//! texts, `Simulator` for single steps and `simulate_batch` for many runs.
//!
//! Here is all of it by name. The code stands in `aig_step`, `aig_trace`, `aig_lanes`, `aig_batch`,
//! `aig_runs` and `aig_witness`. The definitions that matter most are `stimulus`, `IsTraceText`,
//! `TraceSays`, `Stepped`, `IsTraceOf` and `IsVerdict`.
#![tactic(auto)]

pub mod laws;

pub use aig_batch::simulate_batched;
pub use aig_fault::{Fault, Kind, Place, Stopped};
pub use aig_lanes::{FullRow, Run, Trace};
pub use aig_runs::simulate_batch;
pub use aig_step::{Columns, Row, Simulator};
pub use aig_trace::{simulate, simulate_into};
pub use aig_witness::{Verdict, confirm};
