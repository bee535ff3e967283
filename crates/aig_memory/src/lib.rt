//! Memory that is refused, as an error.
//!
//! Others call `OutOfMemory`, the error of a call that can fail in no other way. It stands below
//! devices and circuits, so that neither waits for the other.
#![tactic(auto)]

mod out_of_memory;

pub use crate::out_of_memory::OutOfMemory;
