//! A binary file whose bytes come in pieces: lines, and then gates.
ghost use Rattle.std.specs.Prelude.{◌≡◌, ◌+◌, ◌<◌, ◌≤◌, ◌++◌, [], List, ℕ, IfOk, Ok};
ghost use Rattle.std.specs.Prelude.{drop, length};
ghost use Rattle.aig_lines.specs.Lines.{AreEnded, ahead, lines_of};
ghost use Rattle.aig_text.specs.Begun.{IsLimited};
ghost use Rattle.aig_binary.specs.BinaryReading.{binary_at};
ghost use Rattle.aig_binary.specs.Begun.{AllIsTaken, HasAllGates, IsWithin};
ghost use Rattle.aig_binary.specs.Begun.{binary_then, rest_of};

use crate::gates::{read_first_gates, read_gates};
use crate::reader::{add_definitions, filled_header};
use aig_core::{Gate, Listing};
use aig_fault::Stopped;
use aig_lines::Cursor;
use aig_text::{Format, Header, Limits, LineReader, Pieces, Uncommented, tail};
use std::alloc::Global;

/// A reader of a binary file that takes its bytes piece by piece. After a fault it holds that, and
/// takes all bytes.
#[derive(Drop)]
pub(crate) struct BinaryReader {
    lines: LineReader,
    gates: Listing<Gate>,
}

impl BinaryReader {
    /// It stands after the header line, or at a fault of that.
    pub(crate) fn new(alloc: Global, header: Result<Header, Stopped>, number: u64) -> Self
        requires { IfOk header (λ h. IsLimited h) }
        ensures from { (bytes : List ℕ) → rest_of result bytes
            ≡ binary_then header (ahead number (lines_of bytes)) }
        ensures number { result.lines.number ≡ number }
        ensures valid { IsWithin result }
    {
        BinaryReader {
            lines: LineReader::new(alloc, Format::Binary, header, number),
            gates: Listing::new(alloc),
        }
    }

    /// Reads the header line, with which these lines begin, and answers how many bytes it takes.
    pub(crate) fn begin(alloc: Global, lines: &[u8], limits: Limits) -> (Self, usize)
        requires some { 0 < length lines.now }
        requires ended { AreEnded (lines_of lines.now) }
        ensures on { (more : List ℕ) → binary_at limits.max_var (lines_of (lines.now ++ more))
            ≡ rest_of result.0 (drop result.1 lines.now ++ more) }
        ensures within { result.1 ≤ length lines.now }
        ensures number { result.0.lines.number ≤ 1 + result.1 }
        ensures valid { IsWithin result.0 }
    {
        let mut at = Cursor::new(lines);
        let header = filled_header(&mut at, limits);
        let used = lines.len() - at.rest.len();
        (BinaryReader::new(alloc, header, at.number), used)
    }
}

impl Pieces for BinaryReader {
    ghost rest = { rest_of };

    ghost next_line = { λ r. r.lines.number };

    ghost is_valid = { IsWithin };

    ghost has_all = { HasAllGates };

    ghost leaves = { AllIsTaken };

    fn takes_lines(&self) -> bool {
        !self.lines.is_done()
    }

    fn is_done(&self) -> bool {
        match &self.lines.header {
            Ok(header) => self.lines.is_done() && self.gates.len() == header.gates as usize,
            Err(_) => false,
        }
    }

    fn advance(&mut self, alloc: Global, bytes: &[u8]) -> usize {
        let used = self.lines.advance(alloc, bytes);
        let Ok(header) = self.lines.header else {
            return used;
        };
        if !self.lines.is_done() {
            return used;
        }
        let (_, rest) = bytes.split_at(used);
        let first = 1 + header.inputs + header.latches;
        match read_first_gates(&mut self.gates, first, header.gates, rest) {
            Ok(taken) => used + taken,
            Err(fault) => {
                self.lines.header = Err(fault);
                bytes.len()
            }
        }
    }

    fn finish(self, alloc: Global, bytes: &[u8]) -> Result<Uncommented, Stopped> {
        let BinaryReader { lines, gates } = self;
        let mut at = Cursor::at_line(lines.number, bytes);
        let (header, circuit) = match lines.finish(alloc, &mut at) {
            Ok(found) => found,
            Err(fault) => return Err(fault),
        };
        let mut circuit = circuit;
        let first = 1 + header.inputs + header.latches;
        let (gates, rest) = match read_gates(gates, first, header.gates, at.rest) {
            Ok(found) => found,
            Err(fault) => return Err(fault),
        };
        // The inputs that a header promises take memory only where all lines and gates were there.
        if let Err(fault) = add_definitions(alloc, &header, gates, &mut circuit) {
            return Err(fault);
        }
        tail(alloc, &header, circuit, Cursor::at_line(at.number, rest))
    }
}
