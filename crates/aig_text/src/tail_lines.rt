//! The tail of a file: symbols and comment.
ghost use Rattle.std.specs.Prelude.{◌≡◌, ◌^◌, ◌<◌, drop, IfErr, IfOk, OnOk, Some};
ghost use Rattle.aig_fault.specs.declared.stopped.Stopped.TheVariants.{OutOfMemory};
ghost use Rattle.aig_core.specs.Names.{nothing_named, with_name};
ghost use Rattle.aig_rows.specs.CanonicalNumber.{is_padded};
ghost use Rattle.aig_rows.specs.Kept.{kept_first};
ghost use Rattle.aig_lines.specs.Lines.{bytes_of, line as line_of, line_bytes};
ghost use Rattle.aig_text.specs.Parts.Kept.{kept_symbol, position_at};
ghost use Rattle.aig_rows.specs.Outcomes.{Gives, GivesOrMemory};
ghost use Rattle.aig_text.specs.Scanning.{is_comment_line, kind_at, symbol, symbol_at};
ghost use Rattle.aig_text.specs.Reading.{checked_symbol, count_named, tail_at};
ghost use Rattle.aig_text.specs.Reading.{HasRoomFor, with_last_comment, with_symbol};
ghost use Rattle.aig_rows.specs.Reading.{at_line};

use crate::header_line::Header;
use aig_core::{BorrowedSymbol, Circuit, Kind, NamedCounts, Names};
use aig_fault::{Kind as FaultKind, Stopped, refused_at};
use aig_lines::{Cursor, Line, split_line};
use aig_rows::{canonical_number, ends_line, leading_number};
use std::alloc::{AllocError, Global};

/// Positions from here on are not read at once: canonical numbers above it are all taken as it.
const FAR: u64 = 1 << 33;

/// What a symbol line holds.
#[derive(Clone, Copy)]
struct Naming<'a> {
    kind: Kind,
    /// What is kept of the position.
    position: u64,
    name: &'a [u8],
}

fn kind_of_letter(letter: u8) -> Option<Kind>
    ensures { result ≡ kind_at letter }
{
    match letter {
        b'i' => Some(Kind::Input),
        b'l' => Some(Kind::Latch),
        b'o' => Some(Kind::Output),
        b'b' => Some(Kind::Bad),
        b'c' => Some(Kind::Constraint),
        b'j' => Some(Kind::Justice),
        b'f' => Some(Kind::Fairness),
        _ => None,
    }
}

/// What is kept of the number at the front, however it is spelled, and what stands after the one
/// space that follows it.
#[tactic(auto, unfolding(crate::specs::Parts::Kept::position_at))]
fn spelled_position(text: &[u8]) -> Option<(u64, &[u8])>
    ensures { Gives (λ x. (x.0, x.1.now)) result (kept_first (position_at text.now)) }
{
    let (position, rest) = leading_number(text)?;
    match rest.split_first() {
        Some((b' ', name)) => Some((position, name)),
        _ => None,
    }
}

/// Most numbers are canonical, and so are read at once.
#[inline(always)]
fn leading_position(text: &[u8]) -> Option<(u64, &[u8])>
    ensures { Gives (λ x. (x.0, x.1.now)) result (kept_first (position_at text.now)) }
{
    match canonical_number(text, b' ') {
        Some((position, name)) if position < FAR => Some((position, name)),
        _ => spelled_position(text),
    }
}

#[tactic(auto, unfolding(crate::specs::Scanning::symbol_at, crate::specs::Parts::Kept::position_at))]
fn leading_symbol(text: &[u8]) -> Option<Naming>
    ensures { Gives (λ x. symbol x.kind x.position x.name.now) result
        (kept_symbol (symbol_at text.now)) }
{
    let (letter, rest) = text.split_first()?;
    let kind = kind_of_letter(*letter)?;
    let (position, name) = leading_position(rest)?;
    Some(Naming {
        kind,
        position,
        name,
    })
}

#[tactic(auto, unfolding(crate::specs::Scanning::is_comment_line))]
fn is_comment_line(line: Line) -> bool
    ensures { result ≡ is_comment_line (line_of line.entry.text.now line.entry.ended) }
{
    match line.text.split_first() {
        Some((b'c', rest)) => ends_line(rest, line.ended),
        _ => false,
    }
}

fn count_named(header: &Header, kind: Kind) -> u32
    ensures { result ≡ count_named header.now kind }
{
    match kind {
        Kind::Input => header.inputs,
        Kind::Latch => header.latches,
        Kind::Output => header.outputs,
        Kind::Bad => header.bad,
        Kind::Constraint => header.constraints,
        Kind::Justice => header.justice,
        Kind::Fairness => header.fairness,
    }
}

/// The symbol of a line, whose number this is.
fn read_symbol<'a>(
    header: &Header,
    names: &mut Names,
    line: Line<'a>,
    number: u64,
) -> Result<BorrowedSymbol<'a>, Stopped>
    ensures symbol { GivesOrMemory (λ s. s) result
        (at_line number (checked_symbol header.now names.old (symbol_at line.entry.text.now))) }
    ensures named { IfOk result (λ s. names.new ≡ with_name names.old s.kind s.position) }
    ensures small { IfOk result (λ s. s.position < 2 ^ 32) }
{
    let Some(found) = leading_symbol(line.text) else {
        return Err(refused_at(FaultKind::BadSymbol, number));
    };
    if u64::from(count_named(header, found.kind)) <= found.position {
        return Err(refused_at(FaultKind::SymbolRange, number));
    }
    let position = found.position as u32;
    if !names.insert(found.kind, position)? {
        return Err(refused_at(FaultKind::SymbolTwice, number));
    }
    Ok(BorrowedSymbol {
        kind: found.kind,
        position,
        name: found.name,
    })
}

#[inline(always)]
fn is_position_padded(text: &[u8]) -> bool
    ensures { result ≡ is_padded (drop 1 text.now) }
{
    match text {
        [_, first, next, ..] => next.is_ascii_digit() && *first == b'0',
        _ => false,
    }
}

/// The bytes are those of the line; most are canonical, and so are kept as they are.
fn put_symbol(
    circuit: &mut Circuit,
    symbol: &BorrowedSymbol,
    line: Line,
    bytes: &[u8],
) -> Result<(), Stopped>
    requires symbol { symbol_at line.text.now ≡ Some symbol.now }
    requires small { symbol.now.position < 2 ^ 32 }
    requires bytes { bytes.now ≡ line_bytes (line_of line.text.now line.ended) }
    ensures ok { OnOk result (circuit.new ≡ with_symbol circuit.old symbol.now) }
    ensures err { IfErr result (λ e. e ≡ OutOfMemory) }
{
    if line.ended && !is_position_padded(line.text) {
        circuit.symbols.push_line(symbol, bytes)?;
    } else {
        circuit.symbols.push(symbol)?;
    }
    Ok(())
}

/// Adds the symbols of the lines from here on, where these have names already. Answers how many of
/// the last bytes are the comment, if there is one.
fn read_tail_lines(
    header: &Header,
    names: &mut Names,
    circuit: &mut Circuit,
    at: Cursor,
) -> Result<Option<usize>, Stopped>
    ensures read { GivesOrMemory
        (λ len. with_last_comment (bytes_of at.entry.lines) len circuit.new) result
        (tail_at header.now names.old circuit.old at.entry.number at.entry.lines) }
    ensures within { IfOk result (λ len. HasRoomFor len (bytes_of at.entry.lines)) }
{
    let mut rest = at.rest;
    let mut number = at.number;
    while let Some((line, after)) = split_line(rest) {
        if is_comment_line(line) {
            return Ok(Some(after.len()));
        }
        let symbol = read_symbol(header, names, line, number)?;
        let (bytes, _) = rest.split_at(rest.len() - after.len());
        put_symbol(circuit, &symbol, line, bytes)?;
        rest = after;
        number += 1;
    }
    Ok(None)
}

/// There are at most as many symbols as things to name, each in a line of at least three bytes.
fn reserve_symbols(header: &Header, circuit: &mut Circuit, text: &[u8]) -> Result<(), AllocError>
    ensures { circuit.new ≡ circuit.old }
{
    let things = header.inputs as usize
        + header.latches as usize
        + header.outputs as usize
        + header.bad as usize
        + header.constraints as usize
        + header.justice as usize
        + header.fairness as usize;
    circuit
        .symbols
        .reserve(things.min(text.len() / 3), text.len())
}

/// Adds the symbols of the lines from here on, and answers how many of the last bytes are the
/// comment, if there is one. Without symbols it takes no memory.
pub(crate) fn read_tail(
    alloc: Global,
    header: &Header,
    circuit: &mut Circuit,
    at: Cursor,
) -> Result<Option<usize>, Stopped>
    ensures read { GivesOrMemory
        (λ len. with_last_comment (bytes_of at.entry.lines) len circuit.new) result
        (tail_at header.now nothing_named circuit.old at.entry.number at.entry.lines) }
    ensures within { IfOk result (λ len. HasRoomFor len (bytes_of at.entry.lines)) }
{
    let Some((line, after)) = split_line(at.rest) else {
        return Ok(None);
    };
    if is_comment_line(line) {
        return Ok(Some(after.len()));
    }
    let counts = NamedCounts {
        inputs: header.inputs,
        latches: header.latches,
        outputs: header.outputs,
        bad: header.bad,
        constraints: header.constraints,
        justice: header.justice,
        fairness: header.fairness,
    };
    reserve_symbols(header, circuit, at.rest)?;
    let mut names = Names::new(alloc, counts)?;
    let read = read_tail_lines(header, &mut names, circuit, at);
    drop(names); // for the proof
    read
}
