//! The command line: how it is read, and what it asks for.
//!
//! Others call `command`, which makes a `CommandLine` of the arguments, or a `Usage` that says why
//! they are refused. No other library knows `clap`.
//!
//! The definitions that matter most are `command_of`, `IsCommand` and `IsUsage`.
#![tactic(auto)]

mod builder;
mod destination;
mod hints;
mod info;
pub mod laws;
mod miter;
mod options;
mod packed;
mod proving;
mod reach;
mod reader;
mod request;
mod select;
mod sim;
mod to_aig;
mod to_dot;
mod tool_builders;
mod unroll;
mod usage;

pub use crate::builder::VERSION;
pub use crate::packed::Packer;
pub use crate::reader::command;
pub use crate::request::{
    BadStates, Command, CommandLine, Info, Invariant, Miter, Names, Place, Property, Reach, Select,
    Sim, SolverFile, ToAig, ToDot, Unroll, UnrolledForm,
};
pub use crate::usage::Usage;
