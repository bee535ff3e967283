//! Output in blocks.
ghost use Rattle.std.specs.Prelude.{◌≡◌, ◌+◌, ◌-◌, ◌*◌, ◌%◌, ◌<◌, ◌≤◌, [], ◌++◌};
ghost use Rattle.std.specs.Prelude.{length, take, false, decimal, codes};
ghost use Rattle.std.specs.Prelude.{is_err};
ghost use Rattle.aig_io.specs.Output.{Appended, output_to, row_text};
ghost use Rattle.aig_io.specs.declared.block.TheConstants.{ROOM};
ghost use Rattle.aig_io.specs.declared.digits.TheConstants.{MOST_DIGITS};

use crate::block::{Block, ROOM};
use crate::device::{DeviceFault, Sink};
use crate::digits::{MOST_DIGITS, write_number};
use crate::line::Line;
use crate::transfer::send_all;
use std::marker::Model;

/// A sink, and the bytes on their way to it. An output remembers that its sink failed: what it
/// holds then, and what is put later, is dropped, and `flush` reports the failure at the end.
#[derive(Drop)]
pub struct Output<'a, W: Sink> {
    block: Block,
    failed: bool,
    sink: &'a mut W,
}

impl<'a, W: Sink> Model for Output<'a, W> {
    ghost use Rattle.aig_io.specs.Output.{Out, output_to};

    ghost Value = { Out W };

    ghost view = { λ o. output_to W.history o.sink o.block o.failed };
}

impl<'a, W: Sink> Output<'a, W> {
    /// Nothing is on its way yet.
    pub fn new(sink: &'a mut W) -> Self
        ensures { result ≡ output_to W.history sink.entry [] false }
    {
        Output {
            block: Block::new(),
            failed: false,
            sink,
        }
    }

    /// Sends what is held, unless the sink failed before.
    #[inline(never)]
    fn send_held(&mut self)
        ensures put { Appended self.old self.new [] }
        ensures empty { self.new.held ≡ [] }
    {
        if !self.failed {
            self.failed = send_all(self.sink, self.block.as_slice()).is_err();
        }
        self.block.clear();
    }

    /// Whether the sink failed: then nothing that is put later is sent.
    #[inline(always)]
    pub fn has_failed(&self) -> bool
        ensures { result ≡ self.now.failed }
    {
        self.failed
    }

    /// Sends what is held. Ok means that the sink took all that was put. After a failure it sends
    /// nothing, and reports the failure again.
    pub fn flush(&mut self) -> Result<(), DeviceFault>
        ensures put { Appended self.old self.new [] }
        ensures empty { self.new.held ≡ [] }
        ensures reported { self.new.failed ≡ is_err result }
    {
        self.send_held();
        if self.failed {
            return Err(DeviceFault);
        }
        Ok(())
    }

    /// Sends what is held, and hands the sink back. Ok means that the sink took all that was put.
    pub fn finish(mut self) -> (Result<(), DeviceFault>, &'a mut W)
        ensures same { result.1.ghost_name ≡ self.entry.name }
        ensures put { Appended self.entry (output_to W.history result.1 [] (is_err result.0)) [] }
    {
        let sent = self.flush();
        (sent, self.into_sink())
    }

    /// Hands the sink back. What is held is dropped.
    pub fn into_sink(self) -> &'a mut W
        ensures same { result.ghost_name ≡ self.entry.name }
        ensures sink { self.entry ≡ output_to W.history result self.entry.held self.entry.failed }
    {
        let Output {
            block: _,
            failed: _,
            sink,
        } = self;
        sink
    }

    /// Sends a text from where it stands, unless the sink failed before. Nothing is held.
    fn send_straight(&mut self, bytes: &[u8])
        requires empty { self.old.held ≡ [] }
        requires short { length bytes.now ≤ ROOM }
        ensures put { Appended self.old self.new bytes.now }
        ensures empty { self.new.held ≡ [] }
    {
        if !self.failed {
            self.failed = send_all(self.sink, bytes).is_err();
        }
    }

    /// Sends whole blocks of the bytes where they stand, and holds the last bytes, at most a block.
    fn send_blocks(&mut self, bytes: &[u8]) -> usize
        requires empty { self.old.held ≡ [] }
        ensures within { result ≤ length bytes.now }
        ensures left { 0 < length bytes.now → result < length bytes.now }
        ensures fits { length bytes.now ≤ result + ROOM }
        ensures whole { result % ROOM ≡ 0 }
        ensures put { Appended self.old self.new (take result bytes.now) }
        ensures empty { self.new.held ≡ [] }
    {
        let mut at = 0;
        while bytes.len() - at > ROOM {
            self.send_straight(bytes.split_at(at).1.split_at(ROOM).0);
            at += ROOM;
        }
        at
    }

    /// Puts bytes, of which whole blocks are sent from where they stand, where nothing is held.
    fn put_long(&mut self, bytes: &[u8])
        requires empty { self.old.held ≡ [] }
        ensures left { 0 < length bytes.now
            → length self.new.held ≡ (length bytes.now - 1) % ROOM + 1 }
        ensures put { Appended self.old self.new bytes.now }
    {
        let at = self.send_blocks(bytes);
        self.block.fill(bytes.split_at(at).1);
    }

    /// Adds bytes that do not all fit into the block.
    #[inline(never)]
    fn put_past(&mut self, bytes: &[u8])
        requires { ROOM < length self.old.held + length bytes.now }
        ensures put { Appended self.old self.new bytes.now }
        ensures left { length self.new.held
            ≡ (length self.old.held + length bytes.now - 1) % ROOM + 1 }
    {
        let count = self.block.fill(bytes);
        self.send_held();
        self.put_long(bytes.split_at(count).1);
    }

    /// Adds bytes. What is held is sent only when the block is full and another byte comes.
    #[inline]
    pub fn put(&mut self, bytes: &[u8])
        ensures put { Appended self.old self.new bytes.now }
        ensures kept { length self.old.held + length bytes.now ≤ ROOM
            → self.new.sink ≡ self.old.sink }
        ensures left { 0 < length bytes.now
            → length self.new.held ≡ (length self.old.held + length bytes.now - 1) % ROOM + 1 }
    {
        if self.block.has_room(bytes.len()) {
            self.block.fill(bytes);
        } else {
            self.put_past(bytes);
        }
    }

    /// Adds a number in decimal.
    pub fn put_number(&mut self, number: u64)
        ensures put { Appended self.old self.new (decimal number) }
        ensures kept { length self.old.held + MOST_DIGITS ≤ ROOM → self.new.sink ≡ self.old.sink }
        ensures left { length self.new.held
            ≡ (length self.old.held + length (decimal number) - 1) % ROOM + 1 }
    {
        if self.block.has_room(MOST_DIGITS) {
            self.block.fill_number(number);
        } else {
            let mut room = [0; MOST_DIGITS];
            let end = write_number(&mut room, 0, number);
            self.put(&room[..end]);
        }
    }

    /// Adds a space and a number.
    fn put_spaced_number(&mut self, number: u64)
        ensures put { Appended self.old self.new (codes " " ++ decimal number) }
        ensures left { length self.new.held
            ≡ (length self.old.held + length (codes " " ++ decimal number) - 1) % ROOM + 1 }
    {
        self.put(b" ");
        self.put_number(number);
    }

    /// Adds a line of numbers, where the block may have no room for the longest.
    #[inline(never)]
    fn put_row_past(&mut self, first: u64, others: &[u64])
        ensures put { Appended self.old self.new (row_text first others.now) }
        ensures left { length self.new.held
            ≡ (length self.old.held + length (row_text first others.now) - 1) % ROOM + 1 }
    {
        self.put_number(first);
        for number in others {
            self.put_spaced_number(*number);
        }
        self.put(b"\n");
    }

    /// Adds a line of few numbers.
    #[inline(always)]
    pub fn put_row(&mut self, first: u64, others: &[u64])
        requires { (length others.now + 1) * (MOST_DIGITS + 1) ≤ ROOM }
        ensures put { Appended self.old self.new (row_text first others.now) }
        ensures kept { length self.old.held + (length others.now + 1) * (MOST_DIGITS + 1) ≤ ROOM
            → self.new ≡ record self.old { held = self.old.held ++ row_text first others.now } }
        ensures left { length self.new.held
            ≡ (length self.old.held + length (row_text first others.now) - 1) % ROOM + 1 }
    {
        if self.block.has_room((others.len() + 1) * (MOST_DIGITS + 1)) {
            self.block.fill_row(first, others);
        } else {
            self.put_row_past(first, others);
        }
    }

    /// Adds a line, which is written here first.
    #[inline(never)]
    fn put_long_line<L: Line>(&mut self, room: &mut [u8], line: &L, state: &mut L::State)
        requires whole { L.is_whole line.now state.old }
        requires room { L.size line.now state.old ≤ length room.old }
        ensures put { Appended self.old self.new (L.text line.now state.old) }
        ensures left { 0 < length (L.text line.now state.old) → length self.new.held
            ≡ (length self.old.held + length (L.text line.now state.old) - 1) % ROOM + 1 }
        ensures state { L.leads line.now state.old state.new }
    {
        let end = line.write(state, room, 0);
        let (text, _) = room.split_at(end);
        self.put(text);
    }

    /// Adds a line, written where it stands in the block, so that no part of it looks for room.
    /// Here is a place that has room for it, which serves where a block has not.
    #[inline(always)]
    pub fn put_line<L: Line>(&mut self, room: &mut [u8], line: &L, state: &mut L::State)
        requires whole { L.is_whole line.now state.old }
        requires room { L.size line.now state.old ≤ length room.old }
        ensures put { Appended self.old self.new (L.text line.now state.old) }
        ensures left { 0 < length (L.text line.now state.old) → length self.new.held
            ≡ (length self.old.held + length (L.text line.now state.old) - 1) % ROOM + 1 }
        ensures state { L.leads line.now state.old state.new }
    {
        if self.block.has_room(room.len()) {
            self.block.fill_line(line, state);
        } else {
            self.put_long_line(room, line, state);
        }
    }
}
