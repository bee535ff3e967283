//! What the commands do: the jobs, what each source makes of one, and the laws of it all.
//!
//! Others call `Job`, which a command becomes, `Reading`, whose `read` makes the next job of a
//! source, and `Answer`, which is written; `run_toaig`, `run_witness` and `run_unroll`, which work
//! over any source and sink; `read_source`, `judge` and `Task`. Files, streams and what is reported
//! stand above, in `aig_tools`.
//!
//! The definitions that matter most are `Makes`, `Refuses` and `text_of`, `IsConversionText`,
//! `IsSimulationText`, `IsUnrollingText`, `IsMiterText`, `IsReachText`, `IsNoneText`, `IsNeverText` and `Headline`.
#![tactic(auto)]

mod answer;
mod comparing;
pub mod comparing_laws;
mod conversion;
mod counting;
mod drawing;
pub mod dump_laws;
mod job;
pub mod laws;
pub mod live_laws;
mod outputs_as_bad;
mod property;
mod proving;
mod reaching;
mod refusal;
mod refuting;
mod selecting;
mod task;
mod unrolling;
mod witness;

pub use crate::answer::Answer;
pub use crate::conversion::run_toaig;
pub use crate::job::{Job, Part, Reading};
pub use crate::refusal::Refusal;
pub use crate::task::{Task, task_of};
pub use crate::unrolling::run_unroll;
pub use crate::witness::{judge, run_witness};
pub use aig_binary::read_source;
pub use aig_fault::{Stopped, refused, refused_at, refused_whole};
