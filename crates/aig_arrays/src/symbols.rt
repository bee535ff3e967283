//! The symbols of arrays: four words each, with names that stand end to end.
ghost use Rattle.std.specs.Prelude.{◌≡◌, ◌+◌, ◌<◌, ◌≤◌, [], ◌∷◌};
ghost use Rattle.std.specs.Prelude.{IfOk, IfErr, IfSome, None, OnOk, length, not};
ghost use Rattle.std.specs.List.{list_any};
ghost use Rattle.aig_arrays.specs.Outcomes.{GivesOrMemory};
ghost use Rattle.aig_arrays.specs.Decoded.{header_of, kind_decoded, next_symbol};
ghost use Rattle.aig_arrays.specs.Decoded.{symbol_decoded, symbols_decoded};
ghost use Rattle.aig_core.specs.Names.{nothing_named, with_name};
ghost use Rattle.aig_rows.specs.Outcomes.{Gives};
ghost use Rattle.aig_text.specs.Reading.{count_named, fault_in_symbol};

use crate::counts::Counts;
use crate::entries::{WordCursor, bad_entry};
use aig_core::{BorrowedSymbol, Circuit, Kind, NamedCounts, Names};
use aig_fault::{Kind as FaultKind, Stopped, refused_whole};
use std::alloc::{AllocError, Global};

/// A line of a symbol has so many bytes at most beside the name.
const MOST_BESIDE_NAME: usize = 13;

/// What a word says that a symbol names.
fn kind_of_word(word: u32) -> Option<Kind>
    ensures { result ≡ kind_decoded word }
{
    match word {
        0 => Some(Kind::Input),
        1 => Some(Kind::Latch),
        2 => Some(Kind::Output),
        3 => Some(Kind::Bad),
        4 => Some(Kind::Constraint),
        5 => Some(Kind::Justice),
        6 => Some(Kind::Fairness),
        _ => None,
    }
}

fn count_named(counts: &Counts, kind: Kind) -> u32
    ensures { result ≡ count_named (header_of counts.now) kind }
{
    match kind {
        Kind::Input => counts.inputs,
        Kind::Latch => counts.latches,
        Kind::Output => counts.outputs,
        Kind::Bad => counts.bad,
        Kind::Constraint => counts.constraints,
        Kind::Justice => counts.justice,
        Kind::Fairness => counts.fairness,
    }
}

/// The symbol of four words, whose name begins where the one before ends.
fn symbol_of<'a>(names: &'a [u8], start: usize, row: [u32; 4]) -> Option<BorrowedSymbol<'a>>
    requires { start ≤ length names.now }
    ensures symbol { Gives (λ s. s) result (symbol_decoded names.now start row) }
    ensures fits { IfSome result (λ s. start + length s.name ≤ length names.now) }
{
    let [kind, position, offset, length] = row;
    let end = start + length as usize;
    if offset as usize != start || end > names.len() {
        return None;
    }
    let name = &names[start..end];
    if name.contains(&b'\n') {
        return None;
    }
    let kind = kind_of_word(kind)?;
    Some(BorrowedSymbol {
        kind,
        position,
        name,
    })
}

/// Judges a symbol beside what was named before, and names what it is for.
fn check_symbol(
    counts: &Counts,
    named: &mut Names,
    symbol: &BorrowedSymbol,
) -> Result<Option<FaultKind>, AllocError>
    ensures fault { IfOk result (λ fault.
        fault ≡ fault_in_symbol (header_of counts.now) named.old symbol.now) }
    ensures named { IfOk result (λ fault. fault ≡ None
        → named.new ≡ with_name named.old symbol.now.kind symbol.now.position) }
{
    if count_named(counts, symbol.kind) <= symbol.position {
        return Ok(Some(FaultKind::SymbolRange));
    }
    if named.insert(symbol.kind, symbol.position)? {
        Ok(None)
    } else {
        Ok(Some(FaultKind::SymbolTwice))
    }
}

/// Reads the symbol that begins here, and moves past it.
fn read_symbol<'a>(
    counts: &Counts,
    named: &mut Names,
    names: &'a [u8],
    start: usize,
    from: &mut WordCursor,
) -> Result<BorrowedSymbol<'a>, Stopped>
    requires { start ≤ length names.now }
    ensures symbol { GivesOrMemory (λ s. (s, from.new)) result
        (next_symbol (header_of counts.now) names.now named.old start from.old) }
    ensures named { IfOk result (λ s. named.new ≡ with_name named.old s.kind s.position) }
    ensures fits { IfOk result (λ s. start + length s.name ≤ length names.now) }
{
    let [kind, position, offset, length, rest @ ..] = from.rest else {
        return Err(refused_whole(FaultKind::BadCounts));
    };
    let word = from.at;
    let Some(symbol) = symbol_of(names, start, [*kind, *position, *offset, *length]) else {
        return Err(bad_entry(word, FaultKind::BadSymbol));
    };
    if let Some(kind) = check_symbol(counts, named, &symbol)? {
        return Err(bad_entry(word, kind));
    }
    let at = word + 4;
    *from = WordCursor { rest, at };
    Ok(symbol)
}

/// Adds so many symbols, and answers where their names end.
fn push_symbols(
    counts: &Counts,
    named: &mut Names,
    names: &[u8],
    circuit: &mut Circuit,
    from: &mut WordCursor,
) -> Result<usize, Stopped>
    ensures { GivesOrMemory (λ end. (circuit.new, end)) result
        (symbols_decoded (header_of counts.now) names.now named.old 0 counts.now.symbols from.old
        circuit.old) }
{
    let mut start = 0;
    let mut left = counts.symbols;
    while left > 0 {
        let symbol = read_symbol(counts, named, names, start, from)?;
        circuit.symbols.push(&symbol)?;
        start += symbol.name.len();
        left -= 1;
    }
    Ok(start)
}

/// Adds the symbols, and answers where their names end. Without symbols it takes no memory.
pub(crate) fn read_symbols(
    alloc: Global,
    counts: &Counts,
    names: &[u8],
    circuit: &mut Circuit,
    from: &mut WordCursor,
) -> Result<usize, Stopped>
    ensures { GivesOrMemory (λ end. (circuit.new, end)) result
        (symbols_decoded (header_of counts.now) names.now nothing_named 0 counts.now.symbols
        from.old
        circuit.old) }
{
    if counts.symbols == 0 {
        return Ok(0);
    }
    let things = NamedCounts {
        inputs: counts.inputs,
        latches: counts.latches,
        outputs: counts.outputs,
        bad: counts.bad,
        constraints: counts.constraints,
        justice: counts.justice,
        fairness: counts.fairness,
    };
    let count = counts.symbols as usize;
    circuit
        .symbols
        .reserve(count, MOST_BESIDE_NAME * count + names.len())?;
    let mut named = Names::new(alloc, things)?;
    let end = push_symbols(counts, &mut named, names, circuit, from);
    drop(named); // for the proof
    end
}
