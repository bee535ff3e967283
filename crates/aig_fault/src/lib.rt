//! What is wrong with an input: one type for the whole house.
//!
//! Others call `Fault`, with its `Kind` and its `Place`, and `Message`, of which words are made.
//!
//! The definitions that matter most are `kind_row` and `fault_text`.
#![tactic(auto)]

mod fault;
mod kind;
mod message;
mod stopped;
mod stops;
mod words;

pub use crate::fault::{Fault, Place};
pub use crate::kind::{KINDS, Kind};
pub use crate::message::Message;
pub use crate::stopped::{Stopped, refused, refused_at, refused_whole};
