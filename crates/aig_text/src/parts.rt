//! The parts that ASCII and binary files have in common: the header and the tail.
ghost use Rattle.std.specs.Prelude.{◌≡◌, ◌≤◌, IfOk, OnErr};
ghost use Rattle.aig_core.specs.Names.{nothing_named};
ghost use Rattle.aig_lines.specs.Lines.{bytes_of, lines_of};
ghost use Rattle.aig_rows.specs.Outcomes.{GivesOrFails, GivesOrMemory};
ghost use Rattle.aig_text.specs.Begun.{IsLimited};
ghost use Rattle.aig_text.specs.Reading.{HasRoomFor, first_word_is, header_at, tail_at};
ghost use Rattle.aig_text.specs.Reading.{with_last_comment};

use crate::comment::Uncommented;
use crate::header_line::{Header, begins_with_word, read_header};
use crate::limits::Limits;
use crate::tail_lines::read_tail;
use aig_core::Circuit;
use aig_fault::{Kind, Stopped, refused_at};
use aig_lines::{Cursor, split_line};
use std::alloc::Global;

/// Whether the first word of a text is this one. A word ends at a space, a carriage return, a line
/// feed or the end of the text.
pub fn first_word_is(bytes: &[u8], word: &[u8]) -> bool
    ensures { result ≡ first_word_is word.now (lines_of bytes.now) }
{
    match split_line(bytes) {
        Some((line, _)) => begins_with_word(line.text, word),
        None => false,
    }
}

/// Reads the header line, which has to begin with this word, and moves past it, unless it is not
/// right.
pub fn header(word: &[u8], at: &mut Cursor, limits: Limits) -> Result<Header, Stopped>
    ensures header { GivesOrFails (λ header. (header, at.new)) result
        (header_at word.now limits.max_var at.old) }
    ensures limited { IfOk result (λ header. IsLimited header) }
    ensures err { OnErr result (at.new ≡ at.old) }
{
    let Some((line, rest)) = split_line(at.rest) else {
        return Err(refused_at(Kind::NotAiger, at.number));
    };
    match read_header(word, line, limits) {
        Ok(header) => {
            let number = at.number + 1;
            *at = Cursor { rest, number };
            Ok(header)
        }
        Err(kind) => Err(refused_at(kind, at.number)),
    }
}

/// The circuit with the symbols of the lines from here on, which have its comment. If there are
/// none, it takes no memory.
pub fn tail(
    alloc: Global,
    header: &Header,
    circuit: Circuit,
    at: Cursor,
) -> Result<Uncommented, Stopped>
    ensures read { GivesOrMemory
        (λ x. with_last_comment (bytes_of at.entry.lines) x.comment_len x.circuit) result
        (tail_at header.now nothing_named circuit at.entry.number at.entry.lines) }
    ensures within { IfOk result (λ x. HasRoomFor x.comment_len (bytes_of at.entry.lines)) }
{
    let mut circuit = circuit;
    match read_tail(alloc, header, &mut circuit, at) {
        Ok(comment_len) => Ok(Uncommented {
            circuit,
            comment_len,
        }),
        Err(fault) => {
            drop(circuit); // for the proof
            Err(fault)
        }
    }
}
