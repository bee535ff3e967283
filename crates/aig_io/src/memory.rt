//! Devices in memory.
ghost use Rattle.std.specs.Prelude.{◌≡◌, ◌^◌, ◌<◌, ◌≤◌, ◌↔◌, false, length, take};
ghost use Rattle.std.specs.Prelude.{IsTrue, IfOk, is_ok, vec_len};
ghost use Rattle.aig_io.specs.Devices.{block_size};
ghost use Rattle.aig_io.specs.Memory.{accepted, given, is_due, new_sink, new_source};
ghost use Rattle.aig_io.specs.Memory.{one_call_later, sink_after};
ghost use Rattle.aig_io.specs.Memory.{source_after};

use crate::device::{DeviceFault, Sink, Source};
use crate::record::Record;
use std::alloc::{AllocError, Global};
use std::marker::Model;

/// A source that gives the bytes of a vector, at most `piece` in a call. A chosen call may fail.
#[derive(Drop)]
pub struct MemorySource {
    bytes: Vec<u8>,
    at: usize,
    piece: usize,
    calls_before: Option<u64>,
    failures: Record,
    log: Record,
}

impl Model for MemorySource {
    ghost use Rattle.std.specs.Prelude.{drop, take, vec_len, ◌<◌, ◌≤◌, ◌^◌};
    ghost use Rattle.aig_io.specs.Devices.{no_file};
    ghost use Rattle.aig_io.specs.Memory.{SourceInMemory};
    ghost use Rattle.aig_io.specs.Notes.{sum_of};

    ghost Value = { SourceInMemory };

    ghost view = { λ s. record {
      history = record {
        origin = no_file;
        bytes = take s.at s.bytes.items;
        ends = sum_of s.log.notes;
        failures = sum_of s.failures.notes;
      };
      coming = drop s.at s.bytes.items;
      piece = s.piece;
      fails_in = s.calls_before;
    } };

    ghost invariant = { λ s.
        (vec_len s.bytes ≤ 2 ^ 62) × (s.at ≤ vec_len s.bytes) × (0 < s.piece) };
}

impl MemorySource {
    /// A source of these bytes. The call numbered `fails_at` fails, from 1 on; with 0 none fails.
    pub fn new(bytes: Vec<u8>, piece: usize, fails_at: u64) -> Self
        requires limited { vec_len bytes ≤ 2 ^ 62 }
        requires moves { 0 < piece }
        ensures { result ≡ new_source bytes.items piece fails_at }
    {
        MemorySource {
            bytes,
            at: 0,
            piece,
            calls_before: fails_at.checked_sub(1),
            failures: Record::new(),
            log: Record::new(),
        }
    }
}

/// Whether this call is the one that fails; counts the calls before it down.
fn fails_now(calls_before: &mut Option<u64>) -> bool
    ensures answer { result ≡ is_due calls_before.old }
    ensures counted { calls_before.new ≡ one_call_later calls_before.old }
{
    match *calls_before {
        None => false,
        Some(calls) => {
            *calls_before = calls.checked_sub(1);
            calls == 0
        }
    }
}

impl Source for MemorySource {
    ghost history = { λ s. s.history };

    ghost bound = { λ s. length s.coming };

    fn fetch(&mut self, into: &mut [u8]) -> Result<usize, DeviceFault>
        requires room { 0 < length into.old }
        ensures chosen { IsTrue (is_ok result) ↔ (is_due self.old.fails_in ≡ false) }
        ensures count { IfOk result (λ n. n ≡ given self.old (length into.old)) }
        ensures bytes { IfOk result (λ n. take n into.new ≡ take n self.old.coming) }
        ensures length { length into.new ≡ length into.old }
        ensures limited { length self.old.coming ≤ 2 ^ 62 }
        ensures state { self.new ≡ source_after into.new result self.old }
    {
        if fails_now(&mut self.calls_before) {
            self.failures.note(&[1], &[]);
            return Err(DeviceFault);
        }
        let count = self.piece.min(into.len()).min(self.bytes.len() - self.at);
        into[..count].copy_from_slice(&self.bytes[self.at..self.at + count]);
        self.at += count;
        if count == 0 {
            self.log.note(&[1], &[]);
        }
        Ok(count)
    }
}

/// A sink that keeps what it took. It has room for so many bytes, and takes at most `piece` in each
/// call. One call may be chosen to fail, and where no room is left each call fails.
#[derive(Drop)]
pub struct MemorySink {
    taken: Vec<u8>,
    room: usize,
    piece: usize,
    longest: usize,
    calls_before: Option<u64>,
    failures: Record,
}

impl Model for MemorySink {
    ghost use Rattle.std.specs.Prelude.{vec_len, vec_capacity, ◌<◌, ◌≤◌, ◌+◌};
    ghost use Rattle.aig_io.specs.Devices.{no_file};
    ghost use Rattle.aig_io.specs.Memory.{SinkInMemory};
    ghost use Rattle.aig_io.specs.Notes.{sum_of};

    ghost Value = { SinkInMemory };

    ghost view = { λ s. record {
      history = record { origin = no_file; bytes = s.taken.items; ends = 0; failures = sum_of s.failures.notes };
      room = s.room;
      piece = s.piece;
      longest = s.longest;
      fails_in = s.calls_before;
    } };

    ghost invariant = { λ s. (vec_len s.taken + s.room ≤ vec_capacity s.taken) × (0 < s.piece) };
}

impl MemorySink {
    /// A sink that allocates its room here, unless that fails, and never grows. The call numbered
    /// `fails_at` fails, counted from 1; with 0 no call is chosen.
    pub fn new(alloc: Global, room: usize, piece: usize, fails_at: u64) -> Result<Self, AllocError>
        requires { 0 < piece }
        ensures { IfOk result (λ s. s ≡ new_sink room piece fails_at) }
    {
        Ok(MemorySink {
            taken: Vec::with_capacity(alloc, room)?,
            room,
            piece,
            longest: 0,
            calls_before: fails_at.checked_sub(1),
            failures: Record::new(),
        })
    }

    /// The bytes that it took.
    pub fn bytes(&self) -> &[u8]
        ensures { result.now ≡ self.now.history.bytes }
    {
        self.taken.as_slice()
    }

    /// How many bytes the longest slice had that it was handed.
    pub fn longest(&self) -> usize
        ensures { result ≡ self.now.longest }
    {
        self.longest
    }
}

impl Sink for MemorySink {
    ghost history = { λ s. s.history };

    fn send(&mut self, bytes: &[u8]) -> Result<usize, DeviceFault>
        requires some { 0 < length bytes.now }
        requires short { length bytes.now ≤ block_size }
        ensures moves { IfOk result (λ n. 0 < n) }
        ensures chosen { IsTrue (is_ok result) ↔
            ((is_due self.old.fails_in ≡ false) × (0 < self.old.room)) }
        ensures count { IfOk result (λ n. n ≡ accepted self.old bytes.now) }
        ensures state { self.new ≡ sink_after bytes.now result self.old }
    {
        self.longest = self.longest.max(bytes.len());
        let count = self.piece.min(bytes.len()).min(self.room);
        if fails_now(&mut self.calls_before) || count == 0 {
            self.failures.note(&[1], &[]);
            return Err(DeviceFault);
        }
        if self.taken.extend_from_slice(&bytes[..count]).is_err() {
            unreachable!();
        }
        self.room -= count;
        Ok(count)
    }
}
