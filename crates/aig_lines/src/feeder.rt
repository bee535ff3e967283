//! Bytes that come in pieces, handed on line by line.
ghost use Rattle.std.specs.Prelude.{◌≡◌, ◌+◌, ◌-◌, ◌^◌, ◌<◌, ◌≤◌, ◌++◌, []};
ghost use Rattle.std.specs.Prelude.{IfOk, length, not, if◌then◌else◌};
ghost use Rattle.aig_lines.specs.Feeders.{HasFoldedBytes, IsInitial};
ghost use Rattle.aig_lines.specs.Feeding.{Feeding, TookTurn, checked_line, ended, fold_bytes};
ghost use Rattle.aig_lines.specs.Feeding.{line_ended};
ghost use Rattle.aig_lines.specs.Texts.{without_return};
ghost use Rattle.memchr.specs.Find.{IsFirstByte, is_byte};

use crate::partial_line::PartialLine;
use crate::text::without_return;
use memchr::memchr;
use std::alloc::{AllocError, Global};
use std::marker::Model;

/// What takes the lines of a text.
pub trait LineTaker {
    ghost use Rattle.std.specs.Prelude.{◌≡◌, ◌+◌, ◌-◌, ◌^◌, ◌<◌, ◌≤◌, ℕ, List, if◌then◌else◌};
    ghost use Rattle.aig_lines.specs.Feeding.{TookTurn, Turn};

    /// What it comes to, as a value.
    ghost State: { Type 0 };

    /// What a line of this text does to it.
    ghost step: { Self.State → List ℕ → Turn Self.State };

    /// It stands there.
    ghost IsAt: { Self → Self.State → Type 0 };

    /// How many lines it has counted, if it counts them.
    ghost counted: { Self → ℕ } = { λ _. 0 };

    /// Takes a line of this text, and answers whether it goes on.
    fn take(&mut self, text: &[u8]) -> bool
        requires { counted self.old < 2 ^ 64 - 1 }
        ensures took { (s : Self.State) → Self.IsAt self.old s
            → TookTurn Self.IsAt self.new result (Self.step s text.now) }
        ensures counted { counted self.new ≤ counted self.old + (if result then 1 else 0) };
}

/// Takes bytes in pieces of any length, and hands their lines on, none after one that is refused.
#[derive(Drop)]
pub struct LineFeeder {
    /// The beginning of the line that has not ended yet.
    kept: PartialLine,
    /// How long a line may be. Two bytes more, one maybe a carriage return, show it to be too long.
    limit: usize,
    /// The number of that line, counted from 1; after a refusal that of the line that was refused.
    number: u64,
    refused: bool,
}

impl Model for LineFeeder {
    ghost use Rattle.aig_lines.specs.Feeders.{Feeder};

    ghost Value = { Feeder };

    ghost view = { λ f. record {
      kept = f.kept;
      limit = f.limit;
      number = f.number;
      refused = f.refused;
    } };
}

/// Where the first line feed is. One after a single character is seen without a search, which costs
/// most where lines are short.
#[inline(always)]
fn first_line_feed(bytes: &[u8]) -> Option<usize>
    ensures { IsFirstByte (is_byte 10) bytes.now result }
{
    if bytes.len() > 1 && bytes[1] == b'\n' && bytes[0] != b'\n' {
        return Some(1);
    }
    memchr(b'\n', bytes)
}

/// Hands a line on, unless it is too long.
#[inline(always)]
fn hand_on<T: LineTaker>(taker: &mut T, limit: usize, text: &[u8]) -> bool
    requires { T.counted taker.old < 2 ^ 64 - 1 }
    ensures took { (s : T.State) → T.IsAt taker.old s
        → TookTurn T.IsAt taker.new result (checked_line T.step limit s text.now) }
    ensures counted { T.counted taker.new ≤ T.counted taker.old + (if result then 1 else 0) }
{
    text.len() <= limit && taker.take(text)
}

impl LineFeeder {
    /// It stands before the first byte, and hands on lines of at most so many bytes.
    pub fn new(alloc: Global, limit: usize) -> Result<Self, AllocError>
        requires { limit < 2 ^ 62 }
        ensures limit { IfOk result (λ f. f.limit ≡ limit) }
        ensures initial { IfOk result (λ f. IsInitial f) }
    {
        Ok(LineFeeder {
            kept: PartialLine::new(alloc, limit + 2)?,
            limit,
            number: 1,
            refused: false,
        })
    }

    /// The number of the line that has not ended yet, from 1 on; after a refusal the refused one's.
    pub fn number(&self) -> u64
        ensures { result ≡ self.now.number }
    {
        self.number
    }

    /// Goes on after a line, which was taken or not.
    #[inline(always)]
    fn turn(&mut self, good: bool) -> bool
        requires { self.old.number < 2 ^ 64 - 1 }
        ensures kept { self.new.kept ≡ record self.old.kept { bytes = [] } }
        ensures limit { self.new.limit ≡ self.old.limit }
        ensures number { self.new.number ≡ (if good then self.old.number + 1 else self.old.number) }
        ensures refused { self.new.refused ≡ not good }
        ensures result { result ≡ good }
    {
        self.kept.clear();
        if good {
            self.number += 1;
        }
        self.refused = !good;
        good
    }

    /// Takes the rest of a line, of which the beginning was kept.
    #[tactic(auto, using(crate::proofs::Feeds::checked_joined))]
    fn take_kept<T: LineTaker>(&mut self, taker: &mut T, piece: &[u8]) -> bool
        requires number { self.old.number < 2 ^ 64 - 1 }
        requires counted { T.counted taker.old ≤ self.old.number }
        ensures folded { (at : Feeding T.State) → HasFoldedBytes T.IsAt self.old taker.old at
            → HasFoldedBytes T.IsAt self.new taker.new
            (line_ended T.step at (without_return (at.begun ++ piece.now))) }
        ensures number { self.new.number ≤ self.old.number + 1 }
        ensures counted { T.counted taker.new ≤ self.new.number }
        ensures result { result ≡ not self.new.refused }
    {
        self.kept.keep(piece);
        let good = hand_on(taker, self.limit, without_return(self.kept.as_slice()));
        self.turn(good)
    }

    /// Takes the rest of a line up to its line feed, and answers whether the line was taken.
    #[inline(always)]
    #[tactic(auto, using(crate::proofs::Feeds::not_begun))]
    fn take_ended<T: LineTaker>(&mut self, taker: &mut T, piece: &[u8]) -> bool
        requires number { self.old.number < 2 ^ 64 - 1 }
        requires counted { T.counted taker.old ≤ self.old.number }
        ensures folded { (at : Feeding T.State) → HasFoldedBytes T.IsAt self.old taker.old at
            → HasFoldedBytes T.IsAt self.new taker.new
            (line_ended T.step at (without_return (at.begun ++ piece.now))) }
        ensures number { self.new.number ≤ self.old.number + 1 }
        ensures counted { T.counted taker.new ≤ self.new.number }
        ensures result { result ≡ not self.new.refused }
    {
        if !self.kept.is_empty() {
            return self.take_kept(taker, piece);
        }
        let good = hand_on(taker, self.limit, without_return(piece));
        self.turn(good)
    }

    /// Takes the bytes that came next, and answers whether no line was refused.
    pub fn feed<T: LineTaker>(&mut self, taker: &mut T, chunk: &[u8]) -> bool
        requires number { self.old.number + length chunk.now < 2 ^ 64 }
        requires counted { T.counted taker.old ≤ self.old.number }
        ensures folded { (at : Feeding T.State) → HasFoldedBytes T.IsAt self.old taker.old at
            → HasFoldedBytes T.IsAt self.new taker.new (fold_bytes T.step at chunk.now) }
        ensures number { self.new.number ≤ self.old.number + length chunk.now }
        ensures counted { T.counted taker.new ≤ self.new.number }
        ensures result { result ≡ not self.new.refused }
    {
        if self.refused {
            return false;
        }
        let mut rest = chunk;
        while let Some(at) = first_line_feed(rest) {
            let (piece, more) = rest.split_at(at);
            if !self.take_ended(taker, piece) {
                return false;
            }
            let (_, more) = more.split_at(1);
            rest = more;
        }
        self.kept.keep(rest);
        true
    }

    /// Takes the end of the bytes: a last line without its line feed, where there is one. Answers
    /// whether no line was refused.
    pub fn end<T: LineTaker>(&mut self, taker: &mut T) -> bool
        requires number { self.old.number < 2 ^ 64 - 1 }
        requires counted { T.counted taker.old ≤ self.old.number }
        ensures folded { (at : Feeding T.State) → HasFoldedBytes T.IsAt self.old taker.old at
            → HasFoldedBytes T.IsAt self.new taker.new (ended T.step at) }
        ensures number { self.new.number ≤ self.old.number + 1 }
        ensures counted { T.counted taker.new ≤ self.new.number }
        ensures result { result ≡ not self.new.refused }
    {
        if self.refused {
            return false;
        }
        if self.kept.is_empty() {
            return true;
        }
        let good = hand_on(taker, self.limit, self.kept.as_slice());
        self.turn(good)
    }
}
