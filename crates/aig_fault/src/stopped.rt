//! Why a call made nothing.
ghost use Rattle.std.specs.Prelude.{◌≡◌};
ghost use Rattle.aig_io.specs.Output.{Appended};
ghost use Rattle.aig_fault.specs.declared.stopped.Stopped.TheVariants.{OutOfMemory, Refused};
ghost use Rattle.aig_fault.specs.declared.stopped.Stopped.TheVariants.{WriteFailed};
ghost use Rattle.aig_fault.specs.declared.fault.Place.TheVariants.{Line, Whole};
ghost use Rattle.aig_fault.specs.Stopping.{refusal, stopped_by, stopped_text};

use crate::fault::{Fault, Place};
use crate::kind::Kind;
use aig_io::{DeviceFault, Output, ReadError, Sink};
use std::alloc::{AllocError, AllocFailed};
use thiserror::Error;

/// Why a call made nothing. Only an input has faults; devices and memory have none.
#[derive(Clone, Copy, Debug, PartialEq, Eq, Error)]
pub enum Stopped {
    /// An allocation failed; nothing is known of the input.
    #[error("out of memory")]
    OutOfMemory,
    /// The source failed.
    #[error("cannot read")]
    ReadFailed,
    /// The sink failed. It may have taken a beginning of what was sent.
    #[error("cannot write")]
    WriteFailed,
    /// The input has this fault.
    #[error(transparent)]
    Refused(Fault),
}

impl From<AllocError> for Stopped {
    ghost from_gives = { λ _ stopped. stopped ≡ OutOfMemory };

    fn from(_refused: AllocError) -> Stopped {
        Stopped::OutOfMemory
    }
}

impl<T: Drop> From<AllocFailed<T>> for Stopped {
    ghost from_gives = { λ _ stopped. stopped ≡ OutOfMemory };

    fn from(_refused: AllocFailed<T>) -> Stopped {
        Stopped::OutOfMemory
    }
}

impl From<ReadError> for Stopped {
    ghost from_gives = { λ error stopped. stopped ≡ stopped_by error };

    fn from(error: ReadError) -> Stopped {
        match error {
            ReadError::Source => Stopped::ReadFailed,
            ReadError::OutOfMemory => Stopped::OutOfMemory,
        }
    }
}

impl From<DeviceFault> for Stopped {
    ghost from_gives = { λ _ stopped. stopped ≡ WriteFailed };

    fn from(_fault: DeviceFault) -> Stopped {
        Stopped::WriteFailed
    }
}

impl From<Fault> for Stopped {
    ghost from_gives = { λ fault stopped. stopped ≡ Refused fault };

    fn from(fault: Fault) -> Stopped {
        Stopped::Refused(fault)
    }
}

impl Stopped {
    /// Puts why nothing was made.
    pub fn put<W: Sink>(&self, output: &mut Output<W>)
        ensures { Appended output.old output.new (stopped_text self.now) }
    {
        match self {
            Stopped::OutOfMemory => output.put(b"out of memory"),
            Stopped::ReadFailed => output.put(b"cannot read"),
            Stopped::WriteFailed => output.put(b"cannot write"),
            Stopped::Refused(fault) => fault.put(output),
        }
    }
}

/// An input is refused with this fault.
pub fn refused(kind: Kind, place: Place, subject: u32) -> Stopped
    ensures { result ≡ refusal kind place subject }
{
    Stopped::Refused(Fault {
        kind,
        place,
        subject,
    })
}

/// An input is refused with a fault that has no one place and names nothing.
pub fn refused_whole(kind: Kind) -> Stopped
    ensures { result ≡ refusal kind Whole 0 }
{
    refused(kind, Place::Whole, 0)
}

/// An input is refused with a fault in this line.
pub fn refused_at(kind: Kind, line: u64) -> Stopped
    ensures { result ≡ refusal kind (Line line) 0 }
{
    refused(kind, Place::Line(line), 0)
}
