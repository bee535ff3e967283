//! All bytes of a source, and all bytes to a sink.
ghost use Rattle.std.specs.Prelude.{◌≡◌, ◌+◌, ◌≤◌, false, length, vec_len, Some};
ghost use Rattle.std.specs.Prelude.{IfErr, IfOk, OnErr, OnOk};
ghost use Rattle.aig_io.specs.Devices.{block_size, gave_all, GaveSome};
ghost use Rattle.aig_io.specs.Devices.{took, TookBeginning};
ghost use Rattle.aig_io.specs.Messages.{read_error_text};
ghost use Rattle.aig_io.specs.Windows.{Filled};
ghost use Rattle.aig_io.specs.declared.transfer.ReadError.TheVariants.{OutOfMemory};
ghost use Rattle.aig_io.specs.declared.transfer.ReadError.TheVariants.{Source as SourceFault};

use crate::device::{DeviceFault, Sink, Source};
use crate::room::make_room;
use std::alloc::{AllocError, Global};
use std::error::Error;
use std::fmt;

/// Why not all bytes came.
#[derive(Debug, Drop)]
pub enum ReadError {
    /// The source failed.
    Source,
    /// An allocation failed.
    OutOfMemory,
}

impl fmt::Display for ReadError {
    ghost output = { λ error. Some (read_error_text error) };

    fn fmt<W: fmt::Write>(&self, f: &mut fmt::Formatter<W>) -> fmt::Result {
        match self {
            ReadError::Source => write!(f, "cannot read"),
            ReadError::OutOfMemory => write!(f, "out of memory"),
        }
    }
}

impl Error for ReadError {}

impl From<DeviceFault> for ReadError {
    ghost from_gives = { λ _ e. e ≡ SourceFault };

    fn from(_fault: DeviceFault) -> ReadError {
        ReadError::Source
    }
}

impl From<AllocError> for ReadError {
    ghost from_gives = { λ _ e. e ≡ OutOfMemory };

    fn from(_error: AllocError) -> ReadError {
        ReadError::OutOfMemory
    }
}

/// Adds all that the source still gives, unless it or an allocation fails: then some may be lost.
pub fn read_to_end<R: Source>(source: &mut R, bytes: &mut Vec<u8>) -> Result<(), ReadError>
    ensures ok { OnOk result (Filled bytes.old.items bytes.new.items false
        (R.history source.old) (R.history source.new)) }
    ensures bound { OnOk result (vec_len bytes.new ≤ R.bound source.old + vec_len bytes.old) }
    ensures err { IfErr result (λ error. GaveSome error (R.history source.old)
        (R.history source.new)) }
{
    let mut len = bytes.len();
    loop {
        make_room(bytes, len)?;
        let count = source.fetch(&mut bytes[len..])?;
        len += count;
        if count == 0 {
            bytes.truncate(len);
            return Ok(());
        }
    }
}

/// Reads all that the source still gives, unless it or an allocation fails: then some may be lost.
pub fn read_all<R: Source>(alloc: Global, source: &mut R) -> Result<Vec<u8>, ReadError>
    ensures ok { IfOk result (λ all. R.history source.new
        ≡ gave_all all.items (R.history source.old)) }
    ensures err { IfErr result (λ error. GaveSome error (R.history source.old)
        (R.history source.new)) }
{
    let mut all = Vec::new(alloc);
    read_to_end(source, &mut all)?;
    Ok(all)
}

/// Sends all bytes. On an error the sink took a beginning of them.
pub(crate) fn send_all<W: Sink>(sink: &mut W, bytes: &[u8]) -> Result<(), DeviceFault>
    requires short { length bytes.now ≤ block_size }
    ensures ok { OnOk result (W.history sink.new ≡ took bytes.now (W.history sink.old)) }
    ensures err { OnErr result (TookBeginning bytes.now (W.history sink.old) (W.history sink.new)) }
{
    let mut at = 0;
    while at < bytes.len() {
        at += sink.send(&bytes[at..])?;
    }
    Ok(())
}
