//! Where each byte of an answer leads.
ghost use Rattle.std.specs.Prelude.{◌≡◌, ◌^◌, ◌<◌, IfErr, IfOk, Err, Ok, true};
ghost use Rattle.aig_answer.specs.Answer.{answer_of, awaits_values, begun, behind_line, closed};
ghost use Rattle.aig_answer.specs.Answer.{ended_by, ends_line, goes_on, in_comment, in_line_start};
ghost use Rattle.aig_answer.specs.Answer.{in_minus, in_number, in_return, in_space, in_values};
ghost use Rattle.aig_answer.specs.Answer.{in_word, is_digit, more_digits, next, on_next_line};
ghost use Rattle.aig_answer.specs.Answer.{signed_by, standing_at, status_text};

use aig_fault::{Fault, Kind, Place};

/// The largest number in an answer: variables of solvers are numbers of 32 bits with a sign.
pub const LARGEST_NUMBER: u64 = 2_147_483_647;

/// What a solver says of clauses.
#[derive(Clone, Copy, Debug, Drop, PartialEq)]
pub enum Status {
    Satisfiable,
    Unsatisfiable,
    Unknown,
}

/// Where the next byte stands.
#[derive(Clone, Copy)]
pub enum Spot {
    /// At the beginning of a line.
    LineStart,
    /// In a comment.
    Comment,
    /// In the line of a status, of which so many bytes came.
    Word(Status, usize),
    /// After the `v` of a line of values.
    Values,
    /// After a space in it.
    Space,
    /// After a minus.
    Minus,
    /// In a number, negative or not, that comes to this so far.
    Number(bool, u32),
    /// After a carriage return, which only a line feed may follow.
    Return,
    /// After a wrong byte.
    Wrong,
}

/// The number of a variable, with its sign.
#[derive(Clone, Copy)]
pub struct Signed {
    pub number: u32,
    pub is_negative: bool,
}

/// How far an answer was read.
#[derive(Clone, Copy)]
pub struct Reader {
    pub spot: Spot,
    /// What was said, if the line of the status came.
    pub status: Option<Status>,
    /// Whether the values have ended.
    pub ended: bool,
    /// The number of the line, counted from 1.
    pub line: u64,
}

/// Where a byte leads, and the value that ends with it.
#[derive(Clone, Copy)]
pub struct Move {
    pub reader: Reader,
    pub value: Option<Signed>,
}

/// The line of a status.
fn status_text(status: Status) -> &'static [u8]
    ensures { result.now ≡ status_text status }
{
    match status {
        Status::Satisfiable => b"s SATISFIABLE",
        Status::Unsatisfiable => b"s UNSATISFIABLE",
        Status::Unknown => b"s UNKNOWN",
    }
}

/// Whether the line of a status begins with so many bytes of another one's, and then has this.
fn goes_on(so_far: Status, at: usize, byte: u8, status: Status) -> bool
    ensures is { result ≡ goes_on so_far at byte status }
    ensures within { result ≡ true → at < 2 ^ 62 }
{
    let came = status_text(so_far);
    let text = status_text(status);
    at <= came.len() && at < text.len() && text[..at] == came[..at] && text[at] == byte
}

fn is_digit(byte: u8) -> bool
    ensures { result ≡ is_digit byte }
{
    b'0' <= byte && byte <= b'9'
}

/// Whether a byte ends the text of a line.
fn ends_line(byte: u8) -> bool
    ensures { result ≡ ends_line byte }
{
    byte == b'\n' || byte == b'\r'
}

/// The value that a number is, but for the 0 at the end.
fn signed_by(is_negative: bool, number: u32) -> Option<Signed>
    ensures { result ≡ signed_by is_negative number }
{
    if number == 0 {
        return None;
    }
    Some(Signed {
        number,
        is_negative,
    })
}

impl Reader {
    /// Before the first byte.
    pub fn new() -> Reader
        ensures { result ≡ begun }
    {
        Reader {
            spot: Spot::LineStart,
            status: None,
            ended: false,
            line: 1,
        }
    }

    fn standing_at(self, spot: Spot) -> Reader
        ensures { result ≡ standing_at self spot }
    {
        Reader {
            spot,
            status: self.status,
            ended: self.ended,
            line: self.line,
        }
    }

    pub(crate) fn on_next_line(self) -> Reader
        ensures { result ≡ on_next_line self }
    {
        let line = if self.line < u64::MAX {
            self.line + 1
        } else {
            self.line
        };
        Reader {
            spot: Spot::LineStart,
            status: self.status,
            ended: self.ended,
            line,
        }
    }

    fn behind_line(self, byte: u8) -> Reader
        ensures { result ≡ behind_line self byte }
    {
        if byte == b'\n' {
            self.on_next_line()
        } else {
            self.standing_at(Spot::Return)
        }
    }

    pub(crate) fn awaits_values(self) -> bool
        ensures { result ≡ awaits_values self }
    {
        matches!(self.status, Some(Status::Satisfiable)) && !self.ended
    }

    fn in_line_start(self, byte: u8) -> Reader
        ensures { result ≡ in_line_start self byte }
    {
        if ends_line(byte) {
            return self.behind_line(byte);
        }
        if byte == b'c' {
            return self.standing_at(Spot::Comment);
        }
        if byte == b's' && self.status.is_none() {
            return self.standing_at(Spot::Word(Status::Satisfiable, 1));
        }
        if byte == b'v' && self.awaits_values() {
            return self.standing_at(Spot::Values);
        }
        self.standing_at(Spot::Wrong)
    }

    fn in_comment(self, byte: u8) -> Reader
        ensures { result ≡ in_comment self byte }
    {
        if byte == b'\n' {
            self.on_next_line()
        } else {
            self.standing_at(Spot::Comment)
        }
    }

    fn in_word(self, so_far: Status, at: usize, byte: u8) -> Reader
        ensures { result ≡ in_word self so_far at byte }
    {
        if ends_line(byte) && at == status_text(so_far).len() {
            let said = Reader {
                spot: self.spot,
                status: Some(so_far),
                ended: self.ended,
                line: self.line,
            };
            return said.behind_line(byte);
        }
        if goes_on(so_far, at, byte, Status::Satisfiable) {
            return self.standing_at(Spot::Word(Status::Satisfiable, at + 1));
        }
        if goes_on(so_far, at, byte, Status::Unsatisfiable) {
            return self.standing_at(Spot::Word(Status::Unsatisfiable, at + 1));
        }
        if goes_on(so_far, at, byte, Status::Unknown) {
            return self.standing_at(Spot::Word(Status::Unknown, at + 1));
        }
        self.standing_at(Spot::Wrong)
    }

    fn in_values(self, byte: u8) -> Reader
        ensures { result ≡ in_values self byte }
    {
        if ends_line(byte) {
            return self.behind_line(byte);
        }
        if byte == b' ' {
            return self.standing_at(Spot::Space);
        }
        self.standing_at(Spot::Wrong)
    }

    fn in_space(self, byte: u8) -> Reader
        ensures { result ≡ in_space self byte }
    {
        if ends_line(byte) {
            return self.behind_line(byte);
        }
        if byte == b' ' {
            return self.standing_at(Spot::Space);
        }
        if byte == b'-' && !self.ended {
            return self.standing_at(Spot::Minus);
        }
        if is_digit(byte) && !self.ended {
            return self.standing_at(Spot::Number(false, u32::from(byte - b'0')));
        }
        self.standing_at(Spot::Wrong)
    }

    fn in_minus(self, byte: u8) -> Reader
        ensures { result ≡ in_minus self byte }
    {
        if is_digit(byte) && byte != b'0' {
            return self.standing_at(Spot::Number(true, u32::from(byte - b'0')));
        }
        self.standing_at(Spot::Wrong)
    }

    /// After a number, of which 0 is the last.
    fn ended_by(self, number: u32) -> Reader
        ensures { result ≡ ended_by self number }
    {
        Reader {
            spot: self.spot,
            status: self.status,
            ended: self.ended || number == 0,
            line: self.line,
        }
    }

    fn more_digits(self, is_negative: bool, number: u32, byte: u8) -> Reader
        ensures { result ≡ more_digits self is_negative number byte }
    {
        if is_digit(byte) && number != 0 {
            let more = 10 * u64::from(number) + u64::from(byte - b'0');
            if more <= LARGEST_NUMBER {
                return self.standing_at(Spot::Number(is_negative, more as u32));
            }
        }
        self.standing_at(Spot::Wrong)
    }

    fn in_number(self, is_negative: bool, number: u32, byte: u8) -> Move
        ensures { result ≡ in_number self is_negative number byte }
    {
        if ends_line(byte) {
            return Move {
                reader: self.ended_by(number).behind_line(byte),
                value: signed_by(is_negative, number),
            };
        }
        if byte == b' ' {
            return Move {
                reader: self.ended_by(number).standing_at(Spot::Space),
                value: signed_by(is_negative, number),
            };
        }
        Move {
            reader: self.more_digits(is_negative, number, byte),
            value: None,
        }
    }

    fn in_return(self, byte: u8) -> Reader
        ensures { result ≡ in_return self byte }
    {
        if byte == b'\n' {
            self.on_next_line()
        } else {
            self.standing_at(Spot::Wrong)
        }
    }

    /// After one more byte.
    pub fn next(self, byte: u8) -> Move
        ensures { result ≡ next self byte }
    {
        let reader = match self.spot {
            Spot::Number(is_negative, number) => return self.in_number(is_negative, number, byte),
            Spot::LineStart => self.in_line_start(byte),
            Spot::Comment => self.in_comment(byte),
            Spot::Word(so_far, at) => self.in_word(so_far, at, byte),
            Spot::Values => self.in_values(byte),
            Spot::Space => self.in_space(byte),
            Spot::Minus => self.in_minus(byte),
            Spot::Return => self.in_return(byte),
            Spot::Wrong => self.standing_at(Spot::Wrong),
        };
        Move {
            reader,
            value: None,
        }
    }

    /// After the last byte.
    fn close(self) -> Reader
        ensures { result ≡ closed self }
    {
        match self.spot {
            Spot::LineStart => self,
            Spot::Return => self.standing_at(Spot::Wrong),
            _ => self.next(b'\n').reader,
        }
    }

    /// What the answer is, where no more bytes come; or that a line is none that may stand there, or is
    /// missing.
    pub fn answer(self) -> Result<Status, Fault>
        ensures ok { IfOk result (λ status. answer_of (closed self) ≡ Ok status) }
        ensures err { IfErr result (λ fault. answer_of (closed self) ≡ Err fault) }
    {
        let end = self.close();
        let fault = Fault {
            kind: Kind::BadAnswer,
            place: Place::Line(end.line),
            subject: 0,
        };
        if matches!(end.spot, Spot::Wrong) {
            return Err(fault);
        }
        match end.status {
            None => Err(fault),
            Some(Status::Satisfiable) if !end.ended => Err(fault),
            Some(status) => Ok(status),
        }
    }
}
