//! The files that a command line names, as sources and sinks, with what was done with them.
//!
//! Others call `NamedSource` and `NamedSink`, over any `FileAccess`; `HostFiles` is that of the
//! runtime. A file is opened, made or closed by its name; nothing else is done with names. Where a
//! call fails, its `Reason` is that of the system.
//!
//! The definition that matters most is `IsShown`: what the files show of a device that was let go.
#![tactic(auto)]

mod access;
mod destination;
mod host;
mod reason;
mod source;
mod stage;
mod terminal;

pub use crate::access::FileAccess;
pub use crate::destination::NamedSink;
pub use crate::host::HostFiles;
pub use crate::reason::Reason;
pub use crate::source::NamedSource;
pub use crate::terminal::output_is_terminal;
