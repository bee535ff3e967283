//! The tools: what the program does with its arguments.
//!
//! Others call `serve`, from the arguments to the status over a `World`, which has the files, any
//! `FileAccess` such as those of the runtime (`HostFiles`), and the three streams; and `run`, which
//! does one job. The engines `run_toaig`, `run_sim`, `run_witness` and `run_unroll` work over any
//! source and sink; but for `run_sim` they stand in `aig_commands`. Only this crate knows what each
//! standard stream is for, the lines on standard error, and statuses.
//!
//! The definitions that matter most are `Ends` and `ProgramEnds`. Those of `aig_commands` are here
//! too.
#![tactic(auto)]

pub mod laws;
mod program;
mod reporting;
mod simulation;
mod world;

pub use crate::program::{refuse_for_memory, refuse_words, run, serve};
pub use crate::simulation::run_sim;
pub use crate::world::World;
pub use aig_command::{
    BadStates, Command, CommandLine, Names, Sim, ToAig, Unroll, UnrolledForm, Usage, command,
};
pub use aig_commands::{Answer, Job, Reading, Stopped, Task, run_toaig, run_unroll, run_witness};
pub use aig_files::{HostFiles, output_is_terminal};
pub use aig_witness::Verdict;
