//! The waveform of a trace: a Value Change Dump, made of the lines of the trace as they come.
//!
//! Others call `WaveMemory`, which takes all memory, and `WaveTaker`, which takes the lines of a
//! trace and sends the dump of it to a sink.
//!
//! The definitions that matter most are `frames`, `wave_text` and `Dumps`.
#![tactic(auto)]

mod bits;
mod digit;
mod dump_state;
mod group;
mod head;
pub mod laws;
mod layout;
mod name;
mod place;
mod reversed;
mod room;
mod signal;
mod signal_code;
mod wave;

pub use crate::room::WaveMemory;
pub use crate::wave::WaveTaker;
