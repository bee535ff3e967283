//! Dumps: that of a simulation's trace, and that of the run that a witness file claims.
//!
//! Others call `write_dump`, and `write_trace` where no dump is asked for; `read_and_dump` and
//! `send_dump` for a witness file that comes from a source; and, where all bytes are there, `dump`,
//! `verdict_on` and `judge_and_dump`.
//!
//! The definitions that matter most are `DumpSays`, and of `aig_claims` `IsRunDump`.
#![tactic(auto)]

mod comments;
mod in_memory;
mod marking;
mod run_dump;
mod tracing;
mod witnessing;

pub use crate::in_memory::{dump, verdict_on};
pub use crate::run_dump::{comment_line, judge_and_dump};
pub use crate::tracing::{write_dump, write_trace};
pub use crate::witnessing::{read_and_dump, send_dump};
