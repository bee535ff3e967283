//! The numbered lines of a file whose bytes come in pieces, and an ASCII file whose bytes do.
ghost use Rattle.std.specs.Prelude.{◌≡◌, ◌+◌, ◌^◌, ◌<◌, ◌≤◌, ◌++◌, ◌⊎◌};
ghost use Rattle.std.specs.Prelude.{List, [], ℕ, Err, IfErr, IfOk, MatchResult, Ok, OnOk};
ghost use Rattle.std.specs.Prelude.{drop, length};
ghost use Rattle.std.specs.Prelude.{IsTrue, ◌↔◌};
ghost use Rattle.aig_fault.specs.declared.stopped.Stopped.TheVariants.{OutOfMemory};
ghost use Rattle.aig_lines.specs.Lines.{Ahead, AreEnded, HasNoLineFeed, IsBehind, Line};
ghost use Rattle.aig_lines.specs.Lines.{ahead, lines_of, with_lines};
ghost use Rattle.aig_rows.specs.Outcomes.{GivesOrMemory};
ghost use Rattle.aig_text.specs.Sections.{listed_in, sections};
ghost use Rattle.aig_text.specs.Begun.{HasAllLines, IsDone, IsLimited, IsMissing, IsValid};
ghost use Rattle.aig_text.specs.Begun.{IsWithinHeader, ReadsOn, numbered_at, numbered_of};
ghost use Rattle.aig_text.specs.Begun.{numbered_then, rest_of, sections_from};
ghost use Rattle.aig_text.specs.Reading.{circuit_at, empty_circuit, sections_at};

use crate::comment::Uncommented;
use crate::header_line::{ASCII_WORD, Header};
use crate::limits::Limits;
use crate::parts::{header, tail};
use crate::piecewise::Pieces;
use crate::reader::empty_circuit;
use crate::section::{Format, SECTIONS, missing_line, read_first_of_section, section_rows};
use aig_core::Circuit;
use aig_fault::Stopped;
use aig_lines::{Cursor, ended_lines};
use aig_rows::Due;
use std::alloc::Global;

/// How far the sections of a file were read.
#[derive(Drop)]
pub(crate) struct Progress {
    format: Format,
    /// What the lines so far told.
    circuit: Circuit,
    /// The section that is read, as a place in `SECTIONS`.
    section: usize,
    due: Due,
}

impl Progress {
    pub(crate) fn new(alloc: Global, format: Format, header: &Header) -> Self
        ensures from { (at : Ahead) → sections_from header.now result at ≡ sections_at
            (listed_in format) header.now sections (empty_circuit header.now.max_var) at }
        ensures within { IsWithinHeader header.now result }
    {
        let circuit = empty_circuit(alloc, header.max_var);
        let due = section_rows(format, SECTIONS[0], header, &circuit);
        Progress {
            format,
            circuit,
            section: 0,
            due,
        }
    }

    fn none(alloc: Global, format: Format) -> Self
        ensures circuit { result.circuit ≡ empty_circuit 0 }
        ensures section { result.section ≡ 0 }
        ensures due { result.due.count ≡ 0 }
    {
        Progress {
            format,
            circuit: empty_circuit(alloc, 0),
            section: 0,
            due: Due {
                count: 0,
                carried: 0,
            },
        }
    }

    pub(crate) fn is_done(&self) -> bool
        ensures { IsTrue result ↔ IsDone self.now }
    {
        self.section == SECTIONS.len() - 1 && self.due.count == 0
    }

    /// Adds the entries of the lines ahead, as far as the sections go on, and moves past them.
    pub(crate) fn read_lines(
        &mut self,
        alloc: Global,
        header: &Header,
        at: &mut Cursor,
    ) -> Result<(), Stopped>
        requires limited { IsLimited header.now }
        requires within { IsWithinHeader header.now self.old }
        ensures within { OnOk result (IsWithinHeader header.now self.new) }
        ensures on { OnOk result ((more : List Line)
            → sections_from header.now self.old (with_lines at.old more)
            ≡ sections_from header.now self.new (with_lines at.new more)) }
        ensures behind { OnOk result (IsBehind at.old at.new) }
        ensures all { OnOk result (IsDone self.new ⊎ IsMissing self.new at.new) }
        ensures err { IfErr result (λ e. (e ≡ OutOfMemory) ⊎ ((more : List Line)
            → sections_from header.now self.old (with_lines at.old more) ≡ Err e)) }
    {
        loop {
            let section = SECTIONS[self.section];
            match read_first_of_section(
                alloc,
                self.format,
                section,
                header,
                &mut self.circuit,
                self.due,
                at,
            ) {
                Ok(left) => self.due = left,
                Err(fault) => return Err(fault),
            }
            if self.due.count > 0 || self.section == SECTIONS.len() - 1 {
                return Ok(());
            }
            self.section += 1;
            self.due = section_rows(self.format, SECTIONS[self.section], header, &self.circuit);
        }
    }

    /// The circuit with the entries of all sections, of which the other lines begin here. Goes past
    /// these lines, unless one is not right.
    pub(crate) fn finish(
        self,
        alloc: Global,
        header: &Header,
        at: &mut Cursor,
    ) -> Result<Circuit, Stopped>
        requires limited { IsLimited header.now }
        requires within { IsWithinHeader header.now self }
        ensures read { GivesOrMemory (λ c. (c, at.new)) result
            (sections_from header.now self at.old) }
        ensures behind { OnOk result (IsBehind at.old at.new) }
    {
        let mut progress = self;
        match progress.read_lines(alloc, header, at) {
            Ok(()) => {
                if !progress.is_done() {
                    return Err(missing_line(at));
                }
                Ok(progress.circuit)
            }
            Err(fault) => Err(fault),
        }
    }
}

/// A reader of the numbered lines of a file that takes its bytes piece by piece, and holds what
/// they tell. After a fault it holds that, and takes all bytes.
#[derive(Drop)]
pub struct LineReader {
    /// The header, or the first fault of the file so far.
    pub header: Result<Header, Stopped>,
    progress: Progress,
    /// The number of the next line.
    pub number: u64,
}

impl LineReader {
    /// It stands after the header line, or at a fault of that.
    pub fn new(alloc: Global, format: Format, header: Result<Header, Stopped>, number: u64) -> Self
        requires { IfOk header (λ h. IsLimited h) }
        ensures from { (at : Ahead) → numbered_at result at ≡ numbered_then format header at }
        ensures number { result.number ≡ number }
        ensures header { result.header ≡ header }
        ensures valid { IsValid result.header result.progress }
    {
        let progress = match &header {
            Ok(header) => Progress::new(alloc, format, header),
            Err(_) => Progress::none(alloc, format),
        };
        LineReader {
            header,
            progress,
            number,
        }
    }

    /// Whether all lines of the sections were read.
    pub fn is_done(&self) -> bool
        ensures { IsTrue result ↔ HasAllLines self.now }
    {
        self.header.is_ok() && self.progress.is_done()
    }

    /// Reads the whole lines of the bytes that come next, as far as the sections go on. Answers how
    /// many bytes it took.
    pub fn advance(&mut self, alloc: Global, bytes: &[u8]) -> usize
        requires counted { self.old.number + length bytes.now < 2 ^ 64 }
        requires valid { IsValid self.old.header self.old.progress }
        ensures on { (more : List ℕ) → ReadsOn (numbered_of self.old (lines_of (bytes.now ++ more)))
            (numbered_of self.new (lines_of (drop result bytes.now ++ more))) }
        ensures within { result ≤ length bytes.now }
        ensures header { MatchResult self.new.header (λ h. self.old.header ≡ Ok h)
            (λ _. drop result bytes.now ≡ []) }
        ensures all { IsDone self.new.progress ⊎ HasNoLineFeed (drop result bytes.now) }
        ensures number { self.new.number ≤ self.old.number + result }
        ensures valid { IsValid self.new.header self.new.progress }
    {
        let Ok(header) = self.header else {
            return bytes.len();
        };
        let (lines, _) = ended_lines(bytes);
        let mut at = Cursor::at_line(self.number, lines);
        if let Err(fault) = self.progress.read_lines(alloc, &header, &mut at) {
            self.header = Err(fault);
            return bytes.len();
        }
        self.number = at.number;
        lines.len() - at.rest.len()
    }

    /// What the lines told of which the last begin here, and goes past these, unless one is not
    /// right.
    pub fn finish(self, alloc: Global, at: &mut Cursor) -> Result<(Header, Circuit), Stopped>
        requires { IsValid self.header self.progress }
        ensures read { GivesOrMemory (λ x. (x, at.new)) result (numbered_at self at.old) }
        ensures limited { IfOk result (λ x. IsLimited x.0) }
        ensures behind { OnOk result (IsBehind at.old at.new) }
    {
        match self.header {
            Ok(header) => match self.progress.finish(alloc, &header, at) {
                Ok(circuit) => Ok((header, circuit)),
                Err(fault) => Err(fault),
            },
            Err(fault) => Err(fault),
        }
    }
}

/// A reader of an ASCII file that takes its bytes piece by piece.
#[derive(Drop)]
pub struct AsciiReader {
    lines: LineReader,
}

impl AsciiReader {
    /// Reads the header line, with which these lines begin, and answers how many bytes it takes.
    pub fn begin(alloc: Global, lines: &[u8], limits: Limits) -> (Self, usize)
        requires some { 0 < length lines.now }
        requires ended { AreEnded (lines_of lines.now) }
        ensures on { (more : List ℕ) → circuit_at limits.max_var (lines_of (lines.now ++ more))
            ≡ rest_of result.0 (drop result.1 lines.now ++ more) }
        ensures within { result.1 ≤ length lines.now }
        ensures number { result.0.lines.number ≤ 1 + result.1 }
        ensures valid { IsValid result.0.lines.header result.0.lines.progress }
    {
        let mut at = Cursor::new(lines);
        let header = header(ASCII_WORD, &mut at, limits);
        let used = lines.len() - at.rest.len();
        let lines = LineReader::new(alloc, Format::Ascii, header, at.number);
        (AsciiReader { lines }, used)
    }
}

impl Pieces for AsciiReader {
    ghost rest = { rest_of };

    ghost next_line = { λ r. r.lines.number };

    ghost is_valid = { λ r. IsValid r.lines.header r.lines.progress };

    ghost has_all = { λ r. HasAllLines r.lines };

    ghost leaves = { λ r bytes. IsDone r.lines.progress ⊎ HasNoLineFeed bytes };

    fn takes_lines(&self) -> bool {
        true
    }

    fn is_done(&self) -> bool {
        self.lines.is_done()
    }

    fn advance(&mut self, alloc: Global, bytes: &[u8]) -> usize {
        self.lines.advance(alloc, bytes)
    }

    fn finish(self, alloc: Global, bytes: &[u8]) -> Result<Uncommented, Stopped> {
        let mut at = Cursor::at_line(self.lines.number, bytes);
        let (header, circuit) = match self.lines.finish(alloc, &mut at) {
            Ok(found) => found,
            Err(fault) => return Err(fault),
        };
        tail(alloc, &header, circuit, at)
    }
}
