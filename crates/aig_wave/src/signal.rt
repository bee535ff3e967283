//! The signals of a circuit.
ghost use Rattle.std.specs.Prelude.{◌≡◌, ◌+◌, ◌≤◌, ◌++◌, [], IfOk, OnOk, length, replicate};
ghost use Rattle.aig_circuit.specs.Wellformed.{IsWithinLimits, count_of};
ghost use Rattle.aig_circuit.specs.declared.circuit.TheConstants.{LARGEST};
ghost use Rattle.aig_wave.specs.Signals.{followers, named, names_of, signals_behind};

use crate::name::follows;
use crate::place::{count_of, letter, place};
use aig_circuit::{BorrowedSymbol, Circuit, Kind, OutOfMemory};
use std::alloc::Global;
use std::marker::Model;

/// Neighbours of a kind that are shown as one: which, and where their characters stand in a line.
#[derive(Clone, Copy)]
pub(crate) struct Signal {
    pub(crate) kind: Kind,
    pub(crate) first: u32,
    pub(crate) size: u32,
    pub(crate) start: usize,
}

/// A name where it stands.
#[derive(Drop)]
pub(crate) struct Name<'a> {
    bytes: &'a [u8],
}

impl<'a> Model for Name<'a> {
    ghost use Rattle.std.specs.Prelude.{List, ℕ};

    ghost Value = { List ℕ };

    ghost view = { λ n. n.bytes.now };
}

impl<'a> Name<'a> {
    /// A name of these bytes.
    fn of(bytes: &'a [u8]) -> Self
        ensures { result ≡ bytes.now }
    {
        Name { bytes }
    }

    /// Its bytes.
    pub(crate) fn as_slice(&self) -> &'a [u8]
        ensures { result.now ≡ self.now }
    {
        self.bytes
    }
}

/// Empty names.
fn no_names<'a>(alloc: Global, count: usize) -> Result<Vec<Name<'a>>, OutOfMemory>
    ensures { IfOk result (λ names. names.items ≡ replicate count []) }
{
    let mut names = Vec::with_capacity(alloc, count)?;
    while names.len() < count {
        names.push(Name::of(b""))?;
    }
    Ok(names)
}

/// A symbol of the kind gives its name to its position.
fn give_name<'a>(names: &mut [Name<'a>], kind: Kind, symbol: &BorrowedSymbol<'a>)
    ensures { names.new ≡ named kind names.old symbol.now }
{
    let at = symbol.position as usize;
    if letter(symbol.kind) == letter(kind) && at < names.len() {
        names[at] = Name::of(symbol.name);
    }
}

/// The name of each position of a kind.
pub(crate) fn names_of(
    alloc: Global,
    circuit: &Circuit,
    kind: Kind,
) -> Result<Vec<Name<'_>>, OutOfMemory>
    ensures names { IfOk result (λ names. names.items ≡ names_of circuit.now kind) }
    ensures count { IfOk result (λ names. length names.items ≡ count_of circuit.now kind) }
{
    let mut names = no_names(alloc, count_of(circuit, kind))?;
    for symbol in circuit.symbols.iter() {
        give_name(names.as_mut_slice(), kind, &symbol);
    }
    Ok(names)
}

/// How many of the names follow, one after the other, after the first.
fn followers(first: &[u8], names: &[Name]) -> usize
    ensures value { result ≡ followers first.now names.now }
    ensures within { result ≤ length names.now }
{
    let mut before = first;
    let mut count = 0;
    for name in names {
        if !follows(before, name.as_slice()) {
            return count;
        }
        before = name.as_slice();
        count += 1;
    }
    count
}

/// The signals of the names of a kind.
pub(crate) fn add_signals(
    signals: &mut Vec<Signal>,
    circuit: &Circuit,
    kind: Kind,
    names: &[Name],
) -> Result<(), OutOfMemory>
    requires limits { IsWithinLimits circuit.now }
    requires count { length names.now ≤ LARGEST }
    ensures { OnOk result (signals.new.items
        ≡ signals.old.items ++ signals_behind circuit.now kind 0 [] names.now) }
{
    let start = place(circuit, kind);
    let mut before: &[u8] = b"";
    for at in 0..names.len() {
        let name = names[at].as_slice();
        if !follows(before, name) {
            let (_, others) = names.split_at(at + 1);
            signals.push(Signal {
                kind,
                first: at as u32,
                size: 1 + followers(name, others) as u32,
                start: start + at,
            })?;
        }
        before = name;
    }
    Ok(())
}
