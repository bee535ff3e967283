//! Labels.
ghost use Rattle.std.specs.Prelude.{◌≡◌, None, Some, MatchOption};
ghost use Rattle.aig_circuit.specs.SymbolText.{kind_letter};
ghost use Rattle.aig_io.specs.Output.{Appended};
ghost use Rattle.aig_dot.specs.Label.{is_for, label_byte, label_text, name_of, name_text};
ghost use Rattle.aig_dot.specs.Label.{position_text, reset_text};

use aig_circuit::{BorrowedSymbol, Kind, Reset, Symbols};
use aig_io::{Output, Sink};

fn put_byte<W: Sink>(output: &mut Output<W>, byte: u8)
    ensures { Appended output.old output.new (label_byte byte) }
{
    match byte {
        b'"' => output.put(b"\\\""),
        b'&' => output.put(b"&amp;"),
        b'\\' => output.put(b"\\\\"),
        32..=126 => output.put(&[byte]),
        _ => output.put(b"?"),
    }
}

fn put_label<W: Sink>(output: &mut Output<W>, name: &[u8])
    ensures { Appended output.old output.new (label_text name.now) }
{
    for byte in name {
        put_byte(output, *byte);
    }
}

fn letter(kind: Kind) -> &'static [u8]
    ensures { result.now ≡ kind_letter kind }
{
    match kind {
        Kind::Input => b"i",
        Kind::Latch => b"l",
        Kind::Output => b"o",
        Kind::Bad => b"b",
        Kind::Constraint => b"c",
        Kind::Justice => b"j",
        Kind::Fairness => b"f",
    }
}

fn is_for(symbol: &BorrowedSymbol, kind: Kind, position: usize) -> bool
    ensures { result ≡ is_for kind position symbol.now }
{
    letter(symbol.kind) == letter(kind) && symbol.position as usize == position
}

/// The name of what stands at a position among its kind.
fn name_of(symbols: &Symbols, kind: Kind, position: usize) -> Option<&[u8]>
    ensures { MatchOption result (name_of symbols.now kind position ≡ None)
        (λ name. name_of symbols.now kind position ≡ Some name.now) }
{
    for symbol in symbols.iter() {
        if is_for(&symbol, kind, position) {
            return Some(symbol.name);
        }
    }
    None
}

/// Puts a letter and a position, as in a symbol.
pub(crate) fn put_position<W: Sink>(output: &mut Output<W>, kind: Kind, position: usize)
    ensures { Appended output.old output.new (position_text kind position) }
{
    output.put(letter(kind));
    output.put_number(position as u64);
}

/// Puts what something is called: its name, else its letter and position.
pub(crate) fn put_name<W: Sink>(
    output: &mut Output<W>,
    symbols: &Symbols,
    kind: Kind,
    position: usize,
)
    ensures { Appended output.old output.new (name_text symbols.now kind position) }
{
    match name_of(symbols, kind, position) {
        Some(name) => put_label(output, name),
        None => put_position(output, kind, position),
    }
}

/// Puts what a latch starts at.
pub(crate) fn put_reset<W: Sink>(output: &mut Output<W>, reset: Reset)
    ensures { Appended output.old output.new (reset_text reset) }
{
    match reset {
        Reset::Zero => output.put(b"\\nreset 0"),
        Reset::One => output.put(b"\\nreset 1"),
        Reset::Uninit => output.put(b"\\nuninitialised"),
    }
}
