//! Devices over the program's own memory: a sink that grows, and a source over bytes lent to it.
ghost use Rattle.std.specs.Prelude.{◌≡◌, IfOk};
ghost use Rattle.aig_io.specs.Devices.{no_file, unused};
ghost use Rattle.aig_io.specs.Lent.{HasGiven, lent};

use crate::device::{DeviceFault, Sink, Source};
use crate::record::Record;
use std::alloc::{AllocError, Global};
use std::marker::Model;

/// A sink that keeps all that it takes, and fails where memory is refused.
#[derive(Drop)]
pub struct VecSink {
    bytes: Vec<u8>,
    failures: Record,
}

impl Model for VecSink {
    ghost use Rattle.aig_io.specs.Devices.{History, no_file};
    ghost use Rattle.aig_io.specs.Notes.{sum_of};

    ghost Value = { History };

    ghost view = { λ s.
        record { origin = no_file; bytes = s.bytes.items; ends = 0; failures = sum_of s.failures.notes } };
}

impl VecSink {
    /// A sink that took nothing yet, and has no room.
    pub fn new(alloc: Global) -> Self
        ensures { result ≡ unused no_file }
    {
        VecSink {
            bytes: Vec::new(alloc),
            failures: Record::new(),
        }
    }

    /// A sink that took nothing yet, with room for so many bytes. It grows where more come.
    pub fn with_room(alloc: Global, room: usize) -> Result<Self, AllocError>
        ensures { IfOk result (λ s. s ≡ unused no_file) }
    {
        Ok(VecSink {
            bytes: Vec::with_capacity(alloc, room)?,
            failures: Record::new(),
        })
    }

    /// The bytes that it took.
    pub fn into_vec(self) -> Vec<u8>
        ensures { result.items ≡ self.bytes }
    {
        self.bytes
    }
}

impl Sink for VecSink {
    ghost history = { λ s. s };

    fn send(&mut self, bytes: &[u8]) -> Result<usize, DeviceFault> {
        if self.bytes.extend_from_slice(bytes).is_err() {
            self.failures.note(&[1], &[]);
            return Err(DeviceFault);
        }
        Ok(bytes.len())
    }
}

/// A source of the bytes of a slice. It does not fail.
#[derive(Drop)]
pub struct SliceSource<'a> {
    bytes: &'a [u8],
    at: usize,
    ends: Record,
}

impl<'a> Model for SliceSource<'a> {
    ghost use Rattle.std.specs.Prelude.{◌≡◌, ◌-◌, ◌<◌, ◌≤◌, ◌^◌, length, take};
    ghost use Rattle.aig_io.specs.Lent.{Lent, lent};
    ghost use Rattle.aig_io.specs.Notes.{sum_of};

    ghost Value = { Lent };

    ghost view = { λ s. record {
      history = record {
        origin = lent s.bytes.now;
        bytes = take s.at s.bytes.now;
        ends = sum_of s.ends.notes;
        failures = 0;
      };
      left = length s.bytes.now - s.at;
    } };

    ghost invariant = { λ s. (length s.bytes.now ≤ 2 ^ 62) × (s.at ≤ length s.bytes.now)
        × (0 < sum_of s.ends.notes → s.at ≡ length s.bytes.now) };
}

impl<'a> SliceSource<'a> {
    /// A source of these bytes. There are not more than 2^62 of them, which no memory holds.
    pub fn new(bytes: &'a [u8]) -> Result<Self, AllocError>
        ensures { IfOk result (λ source. source.history ≡ unused (lent bytes.now)) }
    {
        if bytes.len() > 1 << 62 {
            return Err(AllocError);
        }
        Ok(SliceSource {
            bytes,
            at: 0,
            ends: Record::new(),
        })
    }

    /// It gave a beginning of its bytes, and once it answered that it is at its end, all of them.
    pub fn gives_its_bytes(&self)
        ensures { HasGiven self.now.history }
    {
        let _bytes = self.bytes;
    }
}

impl Source for SliceSource<'_> {
    ghost history = { λ s. s.history };

    ghost bound = { λ s. s.left };

    fn fetch(&mut self, into: &mut [u8]) -> Result<usize, DeviceFault> {
        let count = into.len().min(self.bytes.len() - self.at);
        into[..count].copy_from_slice(&self.bytes[self.at..self.at + count]);
        self.at += count;
        if count == 0 {
            self.ends.note(&[1], &[]);
        }
        Ok(count)
    }
}
