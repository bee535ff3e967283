//! The readers and writers of std as devices.
ghost use Rattle.std.specs.Prelude.{◌≡◌, ◌≤◌, ◌^◌};
ghost use Rattle.aig_io.specs.Devices.{no_file, unused};
ghost use Rattle.aig_io.specs.Notes.{noted, sum_of};

use crate::device::{DeviceFault, Sink, Source};
use crate::record::Record;
use std::io::{Read, Write};

/// A reader as a source. After 2^62 bytes it fails.
#[derive(Drop)]
pub struct ReadSource<R> {
    reader: R,
    left: u64,
    failures: Record,
    log: Record,
    ghost limited: { left ≤ 2 ^ 62 },
}

impl<R> ReadSource<R> {
    /// A source of what the reader gives.
    pub fn new(reader: R) -> Self
        ensures reader { result.reader ≡ reader }
        ensures left { result.left ≡ 2 ^ 62 }
        ensures unused { noted result.log.notes (sum_of result.failures.notes) ≡ unused no_file }
    {
        ReadSource {
            reader,
            left: 1 << 62,
            failures: Record::new(),
            log: Record::new(),
        }
    }
}

impl<R: Read> Source for ReadSource<R> {
    ghost history = { λ s. noted s.log.notes (sum_of s.failures.notes) };

    ghost bound = { λ s. s.left };

    fn fetch(&mut self, into: &mut [u8]) -> Result<usize, DeviceFault> {
        if self.left == 0 {
            self.failures.note(&[1], &[]);
            return Err(DeviceFault);
        }
        let room = self.left.min(into.len() as u64) as usize;
        match self.reader.read(&mut into[..room]) {
            Ok(0) => {
                self.log.note(&[1], &[]);
                Ok(0)
            }
            Ok(count) => {
                self.left -= count as u64;
                self.log.note(&[0], &into[..count]);
                Ok(count)
            }
            Err(_) => {
                self.failures.note(&[1], &[]);
                Err(DeviceFault)
            }
        }
    }
}

/// A writer as a sink. A write of no bytes is a failure.
#[derive(Drop)]
pub struct WriteSink<W> {
    writer: W,
    failures: Record,
    log: Record,
}

impl<W> WriteSink<W> {
    /// A sink to the writer.
    pub fn new(writer: W) -> Self
        ensures writer { result.writer ≡ writer }
        ensures unused { noted result.log.notes (sum_of result.failures.notes) ≡ unused no_file }
    {
        WriteSink {
            writer,
            failures: Record::new(),
            log: Record::new(),
        }
    }
}

impl<W: Write> Sink for WriteSink<W> {
    ghost history = { λ s. noted s.log.notes (sum_of s.failures.notes) };

    fn send(&mut self, bytes: &[u8]) -> Result<usize, DeviceFault> {
        match self.writer.write(bytes) {
            Ok(count) if count > 0 => {
                self.log.note(&[0], &bytes[..count]);
                Ok(count)
            }
            _ => {
                self.failures.note(&[1], &[]);
                Err(DeviceFault)
            }
        }
    }
}
