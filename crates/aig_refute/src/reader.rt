//! The lines of a refutation, read byte by byte: those of DRAT as text or binary, which the first
//! bytes tell apart, and those of LRAT as text.
ghost use Rattle.std.specs.Prelude.{◌≡◌, ◌<◌, ◌≤◌, ◌^◌, IfOk, None, OnOk, fold, true};
ghost use Rattle.aig_refute.specs.Lines.{Goes, after, begun, behind_blank, cleared, code_of};
ghost use Rattle.aig_refute.specs.Lines.{ended, first_part, first_reader, first_spot, held_codes};
ghost use Rattle.aig_refute.specs.Lines.{held_text, in_binary, in_blank, in_code, in_comment};
ghost use Rattle.aig_refute.specs.Lines.{in_drat_letter, in_first, in_first_deletion};
ghost use Rattle.aig_refute.specs.Lines.{in_first_number, in_letter, in_line, in_lrat_letter, in_mark};
ghost use Rattle.aig_refute.specs.Lines.{in_minus, in_number, in_part, is_blank, is_code, is_digit};
ghost use Rattle.aig_refute.specs.Lines.{line_of, may_be_held, missing_end, move, moved, next};
ghost use Rattle.aig_refute.specs.Lines.{reading_of, refused, with_code, with_deleted, with_digit};
ghost use Rattle.aig_refute.specs.Lines.{with_group, with_hint, with_literal_number, with_literals};
ghost use Rattle.aig_refute.specs.Lines.{with_number, with_own_number, with_whole};

use crate::words::END;
use std::alloc::{AllocError, Global};

/// The most bytes of the first number of a text: a sign and ten digits.
pub(crate) const MOST_HELD: usize = 11;

/// How a refutation is written.
#[derive(Clone, Copy, Debug, PartialEq, Eq)]
pub enum RefutationFormat {
    /// DRAT: clauses that are added and deleted, as text or binary.
    Drat,
    /// LRAT as text: a clause that is added has a number, and the numbers of clauses that show it.
    Lrat,
}

/// In which part of a line the numbers of a text stand. Lines of DRAT have literals alone.
#[derive(Clone, Copy, Debug, PartialEq, Eq)]
pub enum LinePart {
    /// The number of the clause.
    Number,
    /// Its literals.
    Literals,
    /// The numbers of the clauses that show it.
    Hints,
    /// The numbers of clauses that are deleted.
    Deletion,
}

/// What a byte ended.
#[derive(Clone, Copy, Debug, PartialEq, Eq)]
pub enum LineEnd {
    /// Nothing yet.
    Within,
    /// A line that adds the clause.
    Added,
    /// A line that deletes it.
    Deleted,
    /// It is in no line.
    Bad,
}

/// Where the next byte stands.
#[derive(Clone, Copy, Debug, PartialEq, Eq)]
pub enum Spot {
    /// Before all others: text or binary is open.
    First,
    /// After a `d` that was the first byte.
    FirstDeletion,
    /// After a space that stands there: in a number of a text, or codes.
    FirstNumber,
    /// In a text, at the beginning of a line.
    LineStart,
    /// Between numbers.
    Blank,
    /// In a comment.
    Comment,
    /// After a minus.
    Minus,
    /// In a number.
    Number,
    /// In a binary refutation, at the beginning of a line.
    Mark,
    /// In a code.
    Code,
    /// After a byte that is in no line.
    Wrong,
}

/// How far a refutation was read.
#[derive(Clone, Copy, Debug, PartialEq, Eq)]
pub struct Reader {
    pub format: RefutationFormat,
    pub spot: Spot,
    pub part: LinePart,
    /// What the number comes to so far, or the code.
    pub number: u64,
    /// Whether the number is negative.
    pub is_negative: bool,
    /// How many bits of the code came.
    pub shift: u32,
    /// Whether the line deletes its clause.
    pub is_deletion: bool,
    /// Whether the clause has literals.
    pub has_literals: bool,
    /// In line number N literals are below this one and 2N.
    pub limit: u64,
    /// How many lines began.
    pub line: u64,
}

#[inline(always)]
fn is_digit(byte: u8) -> bool
    ensures { result ≡ is_digit byte }
{
    b'0' <= byte && byte <= b'9'
}

/// Whether numbers stand on both sides of a byte.
#[inline(always)]
fn is_blank(byte: u8) -> bool
    ensures { result ≡ is_blank byte }
{
    byte == b' ' || byte == b'\r' || byte == b'\n'
}

#[inline(always)]
fn behind_blank(byte: u8) -> Spot
    ensures { result ≡ behind_blank byte }
{
    if byte == b'\n' {
        Spot::LineStart
    } else {
        Spot::Blank
    }
}

/// A number with a digit more. No literal has a number that 32 bits do not hold.
#[inline(always)]
fn with_digit(number: u64, byte: u8) -> u64
    requires { is_digit byte ≡ true }
    ensures { result ≡ with_digit number byte }
{
    if number <= u64::from(u32::MAX) {
        10 * number + u64::from(byte - b'0')
    } else {
        number
    }
}

/// Seven bits more, above so many, as far as 64 bits reach.
#[inline(always)]
fn with_group(number: u64, shift: u32, byte: u8) -> u64
    requires { shift ≤ 28 }
    ensures { result ≡ with_group number shift byte }
{
    number.saturating_add(u64::from(byte % 128) << shift)
}

/// Where the first byte stands.
fn first_spot(format: RefutationFormat) -> Spot
    ensures { result ≡ first_spot format }
{
    match format {
        RefutationFormat::Drat => Spot::First,
        RefutationFormat::Lrat => Spot::LineStart,
    }
}

/// How a line begins.
#[inline(always)]
fn first_part(format: RefutationFormat) -> LinePart
    ensures { result ≡ first_part format }
{
    match format {
        RefutationFormat::Drat => LinePart::Literals,
        RefutationFormat::Lrat => LinePart::Number,
    }
}

impl Reader {
    /// Before the first byte.
    fn new(format: RefutationFormat, limit: u64) -> Reader
        ensures { result ≡ first_reader format limit }
    {
        Reader {
            format,
            spot: first_spot(format),
            part: first_part(format),
            number: 0,
            is_negative: false,
            shift: 0,
            is_deletion: false,
            has_literals: false,
            limit,
            line: 0,
        }
    }

    /// A line begins.
    #[inline(always)]
    fn begin_line(&mut self)
        ensures { self.new ≡ in_line self.old }
    {
        if self.line < u64::MAX {
            self.line += 1;
        }
    }

    /// The byte is in no line.
    #[inline(always)]
    fn refuse(&mut self) -> LineEnd
        ensures { refused self.old ≡ record { reader = self.new; literal = None; end = result } }
    {
        self.spot = Spot::Wrong;
        LineEnd::Bad
    }

    /// Numbers of that part follow.
    #[inline(always)]
    fn begin_part(&mut self, part: LinePart) -> LineEnd
        ensures { moved (in_part self.old part)
            ≡ record { reader = self.new; literal = None; end = result } }
    {
        self.part = part;
        LineEnd::Within
    }

    /// The literals end.
    #[inline(always)]
    fn end_literals(&mut self) -> LineEnd
        ensures { with_literals self.old
            ≡ record { reader = self.new; literal = None; end = result } }
    {
        match self.format {
            RefutationFormat::Drat => self.end(),
            RefutationFormat::Lrat => self.begin_part(LinePart::Hints),
        }
    }

    /// The number of a clause ends.
    #[inline(always)]
    fn end_own_number(&mut self) -> LineEnd
        ensures { with_own_number self.old
            ≡ record { reader = self.new; literal = None; end = result } }
    {
        if self.is_negative || self.number == 0 {
            return self.refuse();
        }
        self.begin_part(LinePart::Literals)
    }

    /// The number of a clause ends that is deleted: 0 ends the line.
    #[inline(always)]
    fn end_deleted(&mut self) -> LineEnd
        ensures { with_deleted self.old
            ≡ record { reader = self.new; literal = None; end = result } }
    {
        if self.is_negative {
            return self.refuse();
        }
        if self.number == 0 {
            return self.begin_part(LinePart::Number);
        }
        LineEnd::Within
    }

    /// Which clause the number names. No clause has the number 0, a negative one or one of more
    /// than 32 bits.
    #[inline(always)]
    fn clause_number(&self) -> u32 {
        if self.is_negative {
            return 0;
        }
        u32::try_from(self.number).unwrap_or(0)
    }

    /// What the end of a clause is.
    #[inline(always)]
    fn end(&self) -> LineEnd
        ensures { ended self.now ≡ record { reader = self.now; literal = None; end = result } }
    {
        if self.is_deletion {
            LineEnd::Deleted
        } else {
            LineEnd::Added
        }
    }

    /// Whether a literal that may stand in this line has this code: twice the number of the
    /// variable, and one more if it is negated.
    #[inline(always)]
    fn is_code(&self, code: u64) -> bool
        ensures { result ≡ is_code self.now code }
    {
        let above = self.limit.saturating_add(self.line.saturating_mul(2));
        code >= 2 && code - 2 < above && code - 2 < u64::from(END)
    }

    /// The code of the number, which 32 bits hold.
    #[inline(always)]
    fn code(&self) -> u64
        requires { self.now.number < 2 ^ 32 }
        ensures { result ≡ code_of self.now.is_negative self.now.number }
    {
        if self.is_negative {
            2 * self.number + 1
        } else {
            2 * self.number
        }
    }

    /// A letter in a text of DRAT.
    fn in_drat_letter(&mut self, byte: u8) -> LineEnd
        ensures { in_drat_letter self.old byte
            ≡ record { reader = self.new; literal = None; end = result } }
    {
        if self.is_deletion || self.has_literals {
            return self.refuse();
        }
        match byte {
            b'd' => {
                self.is_deletion = true;
                self.spot = Spot::Blank;
                LineEnd::Within
            }
            b'c' => {
                self.spot = Spot::Comment;
                LineEnd::Within
            }
            _ => self.refuse(),
        }
    }

    /// A letter in a text of LRAT.
    fn in_lrat_letter(&mut self, byte: u8) -> LineEnd
        ensures { in_lrat_letter self.old byte
            ≡ record { reader = self.new; literal = None; end = result } }
    {
        if byte == b'd' && self.part == LinePart::Literals && !self.has_literals {
            self.part = LinePart::Deletion;
            self.spot = Spot::Blank;
            return LineEnd::Within;
        }
        if byte == b'c' && self.part == LinePart::Number {
            self.spot = Spot::Comment;
            return LineEnd::Within;
        }
        self.refuse()
    }

    fn in_letter(&mut self, byte: u8) -> LineEnd
        ensures { in_letter self.old byte ≡ record { reader = self.new; literal = None; end = result } }
    {
        match self.format {
            RefutationFormat::Drat => self.in_drat_letter(byte),
            RefutationFormat::Lrat => self.in_lrat_letter(byte),
        }
    }

    #[inline(always)]
    fn in_blank(&mut self, byte: u8) -> LineEnd
        ensures { in_blank self.old byte ≡ record { reader = self.new; literal = None; end = result } }
    {
        if is_digit(byte) {
            self.spot = Spot::Number;
            self.is_negative = false;
            self.number = u64::from(byte - b'0');
            return LineEnd::Within;
        }
        if byte == b'-' {
            self.spot = Spot::Minus;
            return LineEnd::Within;
        }
        if is_blank(byte) {
            self.spot = behind_blank(byte);
            return LineEnd::Within;
        }
        self.in_letter(byte)
    }

    #[inline(always)]
    fn in_line_start(&mut self, byte: u8) -> LineEnd
        ensures { in_blank (in_line self.old) byte
            ≡ record { reader = self.new; literal = None; end = result } }
    {
        self.begin_line();
        self.in_blank(byte)
    }

    #[inline(always)]
    fn in_comment(&mut self, byte: u8) -> LineEnd
        ensures { in_comment self.old byte ≡ record { reader = self.new; literal = None; end = result } }
    {
        if byte == b'\n' {
            self.spot = Spot::LineStart;
        }
        LineEnd::Within
    }

    #[inline(always)]
    fn in_minus(&mut self, byte: u8) -> LineEnd
        ensures { in_minus self.old byte ≡ record { reader = self.new; literal = None; end = result } }
    {
        if is_digit(byte) && byte != b'0' {
            self.spot = Spot::Number;
            self.is_negative = true;
            self.number = u64::from(byte - b'0');
            return LineEnd::Within;
        }
        self.refuse()
    }

    #[inline(always)]
    fn begin_codes(&mut self)
        ensures { self.new ≡ in_binary self.old }
    {
        self.spot = Spot::Code;
        self.number = 0;
        self.shift = 0;
    }

    #[inline(always)]
    fn in_mark(&mut self, byte: u8) -> LineEnd
        ensures { in_mark (in_line self.old) byte
            ≡ record { reader = self.new; literal = None; end = result } }
    {
        self.begin_line();
        match byte {
            b'a' => {
                self.begin_codes();
                LineEnd::Within
            }
            b'd' => {
                self.is_deletion = true;
                self.begin_codes();
                LineEnd::Within
            }
            _ => self.refuse(),
        }
    }

    fn in_first(&mut self, byte: u8) -> LineEnd
        ensures { in_first (in_line self.old) byte
            ≡ record { reader = self.new; literal = None; end = result } }
    {
        self.begin_line();
        match byte {
            b'a' => {
                self.begin_codes();
                LineEnd::Within
            }
            b'd' => {
                self.is_deletion = true;
                self.spot = Spot::FirstDeletion;
                LineEnd::Within
            }
            _ => self.in_blank(byte),
        }
    }
}

/// Reads the bytes of a refutation.
#[derive(Drop)]
pub struct RefutationReader {
    reader: Reader,
    clause: Vec<u32>,
    /// The bytes of a first number, which may be codes.
    held: Vec<u8>,
    /// Which number the clause has. This and the hints change nothing that a refutation says.
    number: u32,
    hints: Vec<u32>,
}

impl RefutationReader {
    /// No bytes yet, of a refutation over literals below this one.
    pub fn new(alloc: Global, format: RefutationFormat, limit: usize) -> RefutationReader
        ensures { reading_of result ≡ begun format limit }
    {
        RefutationReader {
            reader: Reader::new(format, limit as u64),
            clause: Vec::new(alloc),
            held: Vec::new(alloc),
            number: 0,
            hints: Vec::new(alloc),
        }
    }

    /// The clause in the line.
    pub(crate) fn clause(&self) -> &[u32]
        ensures { result.now ≡ (reading_of self.now).clause }
    {
        self.clause.as_slice()
    }

    /// The number that the clause has by a line of LRAT.
    pub(crate) fn number(&self) -> u32 {
        self.number
    }

    /// The numbers of the clauses that show it, if it is right.
    pub(crate) fn hints(&self) -> &[u32] {
        self.hints.as_slice()
    }

    /// The number of the line, counted from 1.
    pub(crate) fn line(&self) -> u64
        ensures { result ≡ line_of (reading_of self.now) }
    {
        self.reader.line
    }

    /// Begins the next clause.
    #[inline(always)]
    pub(crate) fn clear(&mut self)
        ensures { reading_of self.new ≡ cleared (reading_of self.old) }
    {
        self.clause.clear();
        self.hints.clear();
        self.reader.part = first_part(self.reader.format);
        self.reader.is_deletion = false;
        self.reader.has_literals = false;
    }

    /// What ends the last number of a text, where nothing stands after it.
    pub(crate) fn missing_end(&self) -> &'static [u8]
        ensures { result.now ≡ missing_end (reading_of self.now) }
    {
        match self.reader.spot {
            Spot::Number => b"\n",
            _ => b"",
        }
    }

    /// A code ends, other than 0.
    #[inline(always)]
    fn push_code(&mut self, code: u64) -> Result<LineEnd, AllocError>
        ensures { IfOk result (λ end. Goes self.old (with_code self.old.reader code) self.new end) }
    {
        let is_code = self.reader.is_code(code);
        if !is_code {
            return Ok(self.reader.refuse());
        }
        self.clause.push((code - 2) as u32)?;
        self.reader.has_literals = true;
        Ok(LineEnd::Within)
    }

    /// A number of a literal ends: 0 ends them.
    #[inline(always)]
    fn end_literal(&mut self) -> Result<LineEnd, AllocError>
        ensures { IfOk result (λ end. Goes self.old (with_literal_number self.old.reader) self.new end) }
    {
        if self.reader.number == 0 {
            return Ok(self.reader.end_literals());
        }
        if self.reader.number > u64::from(u32::MAX) {
            return Ok(self.reader.refuse());
        }
        let code = self.reader.code();
        self.push_code(code)
    }

    /// A hint ends: 0 ends the line.
    #[inline(always)]
    fn end_hint(&mut self) -> Result<LineEnd, AllocError>
        ensures { IfOk result (λ end. Goes self.old (with_hint self.old.reader) self.new end) }
    {
        if self.reader.number == 0 {
            let end = self.reader.end();
            return Ok(end);
        }
        self.hints.push(self.reader.clause_number())?;
        Ok(LineEnd::Within)
    }

    /// A number ends.
    #[inline(always)]
    fn end_number(&mut self) -> Result<LineEnd, AllocError>
        ensures { IfOk result (λ end. Goes self.old (with_number self.old.reader) self.new end) }
    {
        match self.reader.part {
            LinePart::Literals => self.end_literal(),
            LinePart::Hints => self.end_hint(),
            LinePart::Number => {
                self.number = self.reader.clause_number();
                Ok(self.reader.end_own_number())
            }
            LinePart::Deletion => Ok(self.reader.end_deleted()),
        }
    }

    #[inline(always)]
    fn in_number(&mut self, byte: u8) -> Result<LineEnd, AllocError>
        ensures { IfOk result (λ end. Goes self.old (in_number self.old.reader byte) self.new end) }
    {
        if is_digit(byte) {
            self.reader.number = with_digit(self.reader.number, byte);
            return Ok(LineEnd::Within);
        }
        if is_blank(byte) {
            self.reader.spot = behind_blank(byte);
            return self.end_number();
        }
        Ok(self.reader.refuse())
    }

    /// A code ends: 0 ends the clause.
    #[inline(always)]
    fn end_code(&mut self, code: u64) -> Result<LineEnd, AllocError>
        ensures { IfOk result (λ end. Goes self.old (with_whole self.old.reader code) self.new end) }
    {
        if code == 0 {
            self.reader.spot = Spot::Mark;
            let end = self.reader.end();
            return Ok(end);
        }
        self.reader.begin_codes();
        self.push_code(code)
    }

    /// Seven bits of a code, the lowest first; the last byte is below 128.
    #[inline(always)]
    fn in_code(&mut self, byte: u8) -> Result<LineEnd, AllocError>
        ensures { IfOk result (λ end. Goes self.old (in_code self.old.reader byte) self.new end) }
    {
        if self.reader.shift > 28 {
            return Ok(self.reader.refuse());
        }
        let number = with_group(self.reader.number, self.reader.shift, byte);
        if byte >= 128 {
            self.reader.number = number;
            self.reader.shift += 7;
            return Ok(LineEnd::Within);
        }
        self.end_code(number)
    }

    fn in_first_deletion(&mut self, byte: u8) -> Result<LineEnd, AllocError>
        ensures { IfOk result (λ end.
            Goes self.old (in_first_deletion self.old.reader byte) self.new end) }
    {
        if byte == b' ' {
            self.reader.spot = Spot::FirstNumber;
            return Ok(LineEnd::Within);
        }
        self.reader.begin_codes();
        self.in_code(byte)
    }

    /// Takes a byte that is not to be held.
    #[inline(always)]
    fn take_plain(&mut self, byte: u8) -> Result<LineEnd, AllocError>
        ensures { IfOk result (λ end. Goes self.old (move self.old.reader byte) self.new end) }
    {
        match self.reader.spot {
            Spot::Code => self.in_code(byte),
            Spot::Mark => Ok(self.reader.in_mark(byte)),
            Spot::Number => self.in_number(byte),
            Spot::Blank => Ok(self.reader.in_blank(byte)),
            Spot::Minus => Ok(self.reader.in_minus(byte)),
            Spot::LineStart => Ok(self.reader.in_line_start(byte)),
            Spot::Comment => Ok(self.reader.in_comment(byte)),
            Spot::First => Ok(self.reader.in_first(byte)),
            Spot::FirstDeletion => self.in_first_deletion(byte),
            Spot::FirstNumber => Ok(LineEnd::Within),
            Spot::Wrong => Ok(self.reader.refuse()),
        }
    }

    /// Takes the bytes that were held.
    fn take_held(&mut self) -> Result<(), AllocError>
        ensures { OnOk result (reading_of self.new
            ≡ fold after (reading_of self.old) (reading_of self.old).held) }
    {
        for k in 0..self.held.len() {
            let byte = self.held[k];
            self.take_plain(byte)?;
        }
        Ok(())
    }

    /// The bytes that were held are of a text.
    fn take_held_text(&mut self) -> Result<(), AllocError>
        ensures { OnOk result (reading_of self.new ≡ held_text (reading_of self.old)) }
    {
        self.reader.spot = Spot::Blank;
        self.take_held()
    }

    /// The bytes that were held are codes, and so is the space before them.
    fn take_held_codes(&mut self) -> Result<(), AllocError>
        ensures { OnOk result (reading_of self.new ≡ held_codes (reading_of self.old)) }
    {
        self.reader.begin_codes();
        self.take_plain(b' ')?;
        self.take_held()
    }

    fn may_be_held(&self, byte: u8) -> bool
        ensures { result ≡ may_be_held (reading_of self.now) byte }
    {
        (byte == b'-' || is_digit(byte)) && self.held.len() < MOST_HELD
    }

    /// A space is a code too, which no clause has twice. So after `d` and a space the next space
    /// shows a text, and any byte that is of no number shows codes.
    fn take_in_first_number(&mut self, byte: u8) -> Result<LineEnd, AllocError>
        ensures { IfOk result (λ end. in_first_number (reading_of self.old) byte
            ≡ record { reading = reading_of self.new; end = end }) }
    {
        if self.may_be_held(byte) {
            self.held.push(byte)?;
            return Ok(LineEnd::Within);
        }
        if byte == b' ' {
            self.take_held_text()?;
            return self.take_plain(byte);
        }
        self.take_held_codes()?;
        self.take_plain(byte)
    }

    /// Takes a byte.
    #[inline(always)]
    pub(crate) fn take(&mut self, byte: u8) -> Result<LineEnd, AllocError>
        ensures { IfOk result (λ end. next (reading_of self.old) byte
            ≡ record { reading = reading_of self.new; end = end }) }
    {
        match self.reader.spot {
            Spot::FirstNumber => self.take_in_first_number(byte),
            _ => self.take_plain(byte),
        }
    }
}
