//! The symbols of a circuit. They are kept as the text that a file has of them: their lines stand
//! in one list of bytes, one after the other, so no name has memory of its own, and all are written
//! at once.
ghost use Rattle.std.specs.Prelude.{◌≡◌, [], ◌∷◌, ◌++◌, length, All, Contains};
ghost use Rattle.std.specs.Prelude.{IfNone, IfOk, IfSome, OnOk, OnErr};
ghost use Rattle.std.specs.List.{flat_map};
ghost use Rattle.std.specs.Cmp.Lexicographic.{pointwise, lists_per};
ghost use Rattle.std.specs.Iterator.{YieldsFirst, item_count};
ghost use Rattle.aig_circuit.specs.Naming.{IsFor};
ghost use Rattle.aig_circuit.specs.SymbolText.{kind_letter, symbol_text};
ghost use Rattle.aig_circuit.specs.contracts.circuit.SymbolPartialEq.TheImpl.Laws.{
  laws-law as symbol_laws,
};

use crate::circuit::{Kind, Symbol};
use itoa::Buffer;
use std::alloc::{AllocError, Global};
use std::marker::Model;

/// A symbol whose line stands among others.
#[derive(Clone, Copy)]
struct StoredSymbol {
    kind: Kind,
    position: u32,
    /// Where the name begins.
    start: usize,
    /// Where it ends.
    end: usize,
}

/// Symbols, in the order of a file: to a contract the list of them, wherever their lines stand.
#[derive(Drop)]
pub struct Symbols {
    /// The lines in canonical spelling, one after the other.
    bytes: Vec<u8>,
    rows: Vec<StoredSymbol>,
}

impl Model for Symbols {
    ghost use Rattle.std.specs.Prelude.{List};
    ghost use Rattle.aig_circuit.specs.declared.circuit.Symbol.{Symbol as SymbolRecord};

    ghost Value = { List SymbolRecord };

    ghost use Rattle.aig_circuit.specs.Symbols.{AreLines, symbols_in};

    ghost view = { λ s. symbols_in s.bytes.items s.rows.items };

    ghost invariant = { λ s. AreLines s.bytes.items s.rows.items };
}

/// A symbol that is looked at where its name stands.
#[derive(Drop)]
pub struct BorrowedSymbol<'a> {
    /// What it names.
    pub kind: Kind,
    /// Which of these, counted from 0 in the order of the file.
    pub position: u32,
    /// The bytes of the name.
    pub name: &'a [u8],
}

impl<'a> Model for BorrowedSymbol<'a> {
    ghost use Rattle.aig_circuit.specs.declared.circuit.Symbol.{Symbol as SymbolRecord};

    ghost Value = { SymbolRecord };

    ghost view = { λ s. record { kind = s.kind; position = s.position; name = s.name.now } };
}

impl<'a> PartialEq for BorrowedSymbol<'a> {
    ghost eq = { ⟦<Symbol as PartialEq>⟧.eq };

    ghost laws = { symbol_laws };

    fn eq(&self, other: &Self) -> bool {
        self.kind == other.kind && self.position == other.position && self.name == other.name
    }
}

/// Each symbol of a list, in its order: to a contract the list of those that are still to come.
#[derive(Drop)]
pub struct EachSymbol<'a> {
    bytes: &'a [u8],
    rows: &'a [StoredSymbol],
}

impl<'a> Model for EachSymbol<'a> {
    ghost use Rattle.std.specs.Prelude.{List};
    ghost use Rattle.aig_circuit.specs.declared.circuit.Symbol.{Symbol as SymbolRecord};

    ghost Value = { List SymbolRecord };

    ghost use Rattle.aig_circuit.specs.Symbols.{AreWithin, symbols_in};

    ghost view = { λ s. symbols_in s.bytes.now s.rows.now };

    ghost invariant = { λ s. AreWithin s.bytes.now s.rows.now };
}

impl<'a> EachSymbol<'a> {
    /// Those that are still to come, once more.
    pub(crate) fn again(&self) -> EachSymbol<'a>
        ensures { result ≡ self.now }
    {
        EachSymbol {
            bytes: self.bytes,
            rows: self.rows,
        }
    }
}

impl<'a> Iterator for EachSymbol<'a> {
    type Item = BorrowedSymbol<'a>;

    ghost next_gives = { YieldsFirst (λ s. s) };

    ghost remaining = { item_count (λ s. s) };

    fn next(&mut self) -> Option<BorrowedSymbol<'a>> {
        let (row, rest) = self.rows.split_first()?;
        self.rows = rest;
        Some(BorrowedSymbol {
            kind: row.kind,
            position: row.position,
            name: &self.bytes[row.start..row.end],
        })
    }
}

fn letter(kind: Kind) -> &'static [u8]
    ensures { result.now ≡ kind_letter kind }
{
    match kind {
        Kind::Input => b"i",
        Kind::Latch => b"l",
        Kind::Output => b"o",
        Kind::Bad => b"b",
        Kind::Constraint => b"c",
        Kind::Justice => b"j",
        Kind::Fairness => b"f",
    }
}

fn line_of(alloc: Global, symbol: &BorrowedSymbol) -> Result<Vec<u8>, AllocError>
    ensures { IfOk result (λ line. line.items ≡ symbol_text symbol.now) }
{
    let mut digits = Buffer::new();
    let mut line = Vec::from_slice(alloc, letter(symbol.kind))?;
    line.extend_from_slice(digits.format(symbol.position).as_bytes())?;
    line.extend_from_slice(b" ")?;
    line.extend_from_slice(symbol.name)?;
    line.extend_from_slice(b"\n")?;
    Ok(line)
}

impl Symbols {
    /// No symbols yet; memory is taken from `alloc` where there are more.
    pub fn new(alloc: Global) -> Self
        ensures { result ≡ [] }
    {
        Symbols {
            bytes: Vec::new(alloc),
            rows: Vec::new(alloc),
        }
    }

    /// How many symbols there are.
    pub fn len(&self) -> usize
        ensures { result ≡ length self.now }
    {
        self.rows.len()
    }

    /// Each symbol, in its order.
    pub fn iter(&self) -> EachSymbol<'_>
        ensures { result ≡ self.now }
    {
        EachSymbol {
            bytes: self.bytes.as_slice(),
            rows: self.rows.as_slice(),
        }
    }

    /// The name of what stands at this position among its kind, counted from 0; `None` where no
    /// symbol is for it. In a circuit in form there is one at most. The symbols are looked at one
    /// after the other.
    pub fn name_of(&self, kind: Kind, position: u32) -> Option<&[u8]>
        ensures named { IfSome result (λ name. Contains self.now
            (record { kind = kind; position = position; name = name.now })) }
        ensures unnamed { IfNone result (All (λ symbol. ¬ IsFor kind position symbol) self.now) }
    {
        self.iter()
            .find(|symbol| symbol.kind == kind && symbol.position == position)
            .map(|symbol| symbol.name)
    }

    /// Makes room for so many symbols more, whose lines have so many bytes.
    pub fn reserve(&mut self, count: usize, bytes: usize) -> Result<(), AllocError>
        ensures { self.new ≡ self.old }
    {
        self.rows.reserve(count)?;
        self.bytes.reserve(bytes)
    }

    /// Adds a symbol at the end. If an allocation fails, the symbols stay as they are.
    pub fn push(&mut self, symbol: &BorrowedSymbol) -> Result<(), AllocError>
        ensures ok { OnOk result (self.new ≡ self.old ++ symbol.now ∷ []) }
        ensures err { OnErr result (self.new ≡ self.old) }
    {
        let line = line_of(*self.bytes.allocator(), symbol)?;
        self.push_line(symbol, line.as_slice())
    }

    /// Adds a symbol at the end, of which this is the line in canonical spelling, with its line
    /// feed. If an allocation fails, the symbols stay as they are.
    #[inline(always)]
    pub fn push_line(&mut self, symbol: &BorrowedSymbol, line: &[u8]) -> Result<(), AllocError>
        requires { line.now ≡ symbol_text symbol.now }
        ensures ok { OnOk result (self.new ≡ self.old ++ symbol.now ∷ []) }
        ensures err { OnErr result (self.new ≡ self.old) }
    {
        let before = self.bytes.len();
        self.bytes.extend_from_slice(line)?;
        let end = self.bytes.len() - 1;
        let row = StoredSymbol {
            kind: symbol.kind,
            position: symbol.position,
            start: end - symbol.name.len(),
            end,
        };
        match self.rows.push(row) {
            Ok(()) => Ok(()),
            Err(_) => {
                self.bytes.truncate(before);
                Err(AllocError)
            }
        }
    }

    /// The lines of all symbols in canonical spelling.
    pub fn as_text(&self) -> &[u8]
        ensures { result.now ≡ flat_map symbol_text self.now }
    {
        self.bytes.as_slice()
    }

    /// The same symbols in memory of their own, unless an allocation fails.
    pub fn copy(&self, alloc: Global) -> Result<Self, AllocError>
        ensures { IfOk result (λ r. r ≡ self.now) }
    {
        Ok(Symbols {
            bytes: Vec::from_slice(alloc, self.bytes.as_slice())?,
            rows: Vec::from_slice(alloc, self.rows.as_slice())?,
        })
    }
}

impl PartialEq for Symbols {
    ghost eq = { pointwise ⟦<Symbol as PartialEq>⟧.eq };

    ghost laws = { lists_per symbol_laws };

    fn eq(&self, other: &Self) -> bool {
        let mut others = other.iter();
        for symbol in self.iter() {
            match others.next() {
                Some(other) if symbol == other => {}
                _ => return false,
            }
        }
        others.next().is_none()
    }
}

impl Clone for Symbols {
    ghost is_clone = { λ symbols copy. copy ≡ symbols };

    fn clone(&self) -> Result<Self, AllocError> {
        self.copy(*self.bytes.allocator())
    }
}
