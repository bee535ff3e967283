//! Lines of a text.
ghost use Rattle.std.specs.Prelude.{◌≡◌, ◌+◌, ◌^◌, ◌<◌, [], ◌∷◌, ◌++◌, length, MatchOption};
ghost use Rattle.aig_lines.specs.Lines.{ahead, AreEnded, line, lines_of, HasNoLineFeed};

use memchr::{memchr, memrchr};
use std::marker::Model;

/// A line without its line feed.
#[derive(Clone, Copy)]
pub struct Line<'a> {
    /// Its bytes.
    pub text: &'a [u8],
    /// Whether a line feed follows; only the last line of a text may lack it.
    pub ended: bool,
}

/// A place in a text where a line begins.
#[derive(Drop)]
pub struct Cursor<'a> {
    /// What is left of the text.
    pub rest: &'a [u8],
    /// The number of the line that begins here, counted from 1.
    pub number: u64,
}

impl<'a> Model for Cursor<'a> {
    ghost use Rattle.aig_lines.specs.Lines.{Ahead, ahead, lines_of};

    ghost Value = { Ahead };

    ghost use Rattle.std.specs.Prelude.{◌+◌, ◌^◌, ◌<◌, length};

    ghost view = { λ at. ahead at.number (lines_of at.rest.now) };

    // Each line has a byte, so no number is too large to be counted.
    ghost invariant = { λ at. at.number + length at.rest.now < 2 ^ 64 };
}

impl<'a> Cursor<'a> {
    /// The beginning of a text.
    pub fn new(text: &'a [u8]) -> Self
        ensures { result ≡ ahead 1 (lines_of text.now) }
    {
        Cursor::at_line(1, text)
    }

    /// A place after which this is left of the text, and where this line begins.
    pub fn at_line(number: u64, rest: &'a [u8]) -> Self
        requires { number + length rest.now < 2 ^ 64 }
        ensures { result ≡ ahead number (lines_of rest.now) }
    {
        Cursor { rest, number }
    }
}

/// The first line, and what follows it; `None` where no line is left.
pub fn split_line(bytes: &[u8]) -> Option<(Line, &[u8])>
    ensures lines { MatchOption result (lines_of bytes.now ≡ [])
        (λ x. lines_of bytes.now ≡ line x.0.text.now x.0.ended ∷ lines_of x.1.now) }
    ensures shorter { MatchOption result (length bytes.now ≡ 0)
        (λ x. length x.1.now < length bytes.now) }
{
    if bytes.is_empty() {
        return None;
    }
    match memchr(b'\n', bytes) {
        Some(at) => {
            let (text, rest) = bytes.split_at(at);
            let (_, rest) = rest.split_at(1);
            Some((Line { text, ended: true }, rest))
        }
        None => Some((
            Line {
                text: bytes,
                ended: false,
            },
            &[],
        )),
    }
}

/// The lines at the front that have their line feed, and what follows them.
pub fn ended_lines(bytes: &[u8]) -> (&[u8], &[u8])
    ensures cut { bytes.now ≡ result.0.now ++ result.1.now }
    ensures ended { AreEnded (lines_of result.0.now) }
    ensures all { HasNoLineFeed result.1.now }
{
    match memrchr(b'\n', bytes) {
        Some(at) => bytes.split_at(at + 1),
        None => (&[], bytes),
    }
}
