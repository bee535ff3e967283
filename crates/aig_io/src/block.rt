//! Bytes on their way to a sink.
ghost use Rattle.std.specs.Prelude.{◌≡◌, ◌+◌, ◌-◌, ◌*◌, ◌≤◌, [], ◌++◌, ◌↔◌};
ghost use Rattle.std.specs.Prelude.{length, take, min, decimal, IsOk, OnErr};
ghost use Rattle.std.specs.Prelude.{IsTrue};
ghost use Rattle.aig_io.specs.Output.{row_text};
ghost use Rattle.aig_io.specs.declared.block.TheConstants.{ROOM};
ghost use Rattle.aig_io.specs.declared.digits.TheConstants.{MOST_DIGITS};

use crate::digits::{MOST_DIGITS, write_number, write_row};
use crate::line::Line;
use std::fmt;
use std::marker::Model;

/// How many bytes a block holds at most, and so how many go to a sink in one slice.
pub const ROOM: usize = 8192;

/// At most `ROOM` bytes.
#[derive(Drop)]
pub struct Block {
    bytes: [u8; ROOM],
    len: usize,
}

impl Model for Block {
    ghost use Rattle.std.specs.Prelude.{List, ℕ, take, ◌≤◌};
    ghost use Rattle.aig_io.specs.declared.block.TheConstants.{ROOM};

    ghost Value = { List ℕ };

    ghost view = { λ b. take b.len b.bytes };

    ghost invariant = { λ b. b.len ≤ ROOM };
}

impl Block {
    /// An empty block.
    pub fn new() -> Self
        ensures { result ≡ [] }
    {
        Block {
            bytes: [0; ROOM],
            len: 0,
        }
    }

    /// The bytes that it holds.
    pub fn as_slice(&self) -> &[u8]
        ensures value { result.now ≡ self.now }
        ensures short { length self.now ≤ ROOM }
    {
        &self.bytes[..self.len]
    }

    /// Whether so many bytes more fit.
    #[inline(always)]
    pub(crate) fn has_room(&self, room: usize) -> bool
        ensures value { IsTrue result ↔ (length self.now + room ≤ ROOM) }
        ensures short { length self.now ≤ ROOM }
    {
        room <= ROOM - self.len
    }

    /// Lets all bytes go.
    pub(crate) fn clear(&mut self)
        ensures { self.new ≡ [] }
    {
        self.len = 0;
    }

    /// Takes as many of the bytes as there is room for, and answers how many.
    pub(crate) fn fill(&mut self, bytes: &[u8]) -> usize
        ensures count { result ≡ min (ROOM - length self.old) (length bytes.now) }
        ensures value { self.new ≡ self.old ++ take result bytes.now }
        ensures short { length self.old ≤ ROOM }
    {
        let count = (ROOM - self.len).min(bytes.len());
        self.bytes[self.len..self.len + count].copy_from_slice(&bytes[..count]);
        self.len += count;
        count
    }

    /// Takes a number, where there is room for it.
    #[inline]
    pub(crate) fn fill_number(&mut self, number: u64)
        requires { length self.old + MOST_DIGITS ≤ ROOM }
        ensures value { self.new ≡ self.old ++ decimal number }
        ensures short { length self.new ≤ ROOM }
    {
        self.len = write_number(&mut self.bytes, self.len, number);
    }

    /// Takes a line of numbers with a space between them, where there is room for it.
    #[inline(always)]
    pub(crate) fn fill_row(&mut self, first: u64, others: &[u64])
        requires { length self.old + (length others.now + 1) * (MOST_DIGITS + 1) ≤ ROOM }
        ensures value { self.new ≡ self.old ++ row_text first others.now }
        ensures short { length self.new ≤ ROOM }
    {
        self.len = write_row(&mut self.bytes, self.len, first, others);
    }

    /// Takes a line, where there is room for it.
    #[inline(always)]
    pub(crate) fn fill_line<L: Line>(&mut self, line: &L, state: &mut L::State)
        requires whole { L.is_whole line.now state.old }
        requires room { length self.old + L.size line.now state.old ≤ ROOM }
        ensures added { self.new ≡ self.old ++ L.text line.now state.old }
        ensures short { length self.new ≤ ROOM }
        ensures state { L.leads line.now state.old state.new }
    {
        self.len = line.write(state, &mut self.bytes, self.len);
    }
}

/// Adds a text where it fits. So a message is formatted without memory.
impl fmt::Write for Block {
    ghost write_str_gives = { λ before text after. after ≡ before ++ text };

    fn write_str(&mut self, text: &str) -> fmt::Result
        ensures ok { IsOk result → self.new ≡ self.old ++ text.now }
        ensures err { OnErr result (self.new ≡ self.old) }
        ensures fits { IsOk result ↔ (length self.old + length text.now ≤ ROOM) }
    {
        let bytes = text.as_bytes();
        if bytes.len() > ROOM - self.len {
            return Err(fmt::Error);
        }
        self.fill(bytes);
        Ok(())
    }
}
