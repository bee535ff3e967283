//! The devices that bytes come from and go to, and output in blocks.
//!
//! Others call `read_all` and `read_to_end`, which read a source to its end; `Window`, which holds
//! a part of its bytes; `Output`, which sends a text to a sink in blocks; and each `Source` or
//! `Sink`: `SliceSource` and `VecSink` over memory, `ReadSource` and `WriteSink` over std's readers
//! and writers, and for tests `MemorySource` and `MemorySink`, of which a chosen call can fail.
//!
//! The definitions that matter most are `History`, `TookBeginning` and `Appended`.
#![tactic(auto)]

mod block;
mod device;
mod digits;
pub mod laws;
mod lent;
mod line;
mod memory;
mod output;
mod record;
mod room;
mod streams;
mod transfer;
mod window;

pub use crate::block::{Block, ROOM};
pub use crate::device::{DeviceFault, Sink, Source};
pub use crate::digits::MOST_DIGITS;
pub use crate::lent::{SliceSource, VecSink};
pub use crate::line::Line;
pub use crate::memory::{MemorySink, MemorySource};
pub use crate::output::Output;
pub use crate::record::Record;
pub use crate::streams::{ReadSource, WriteSink};
pub use crate::transfer::{ReadError, read_all, read_to_end};
pub use crate::window::Window;
