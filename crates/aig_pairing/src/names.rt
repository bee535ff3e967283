//! The names of what is paired.
ghost use Rattle.std.specs.Prelude.{◌≡◌, ◌++◌, IfOk, None, OnOk, length, replicate};
ghost use Rattle.aig_pairing.specs.Names.{named, names_by};

use crate::paired::Paired;
use aig_circuit::{BorrowedSymbol, Symbols};
use std::alloc::{AllocError, Global};
use std::marker::Model;

/// A name where it stands.
#[derive(Drop)]
pub(crate) struct Name<'a> {
    bytes: &'a [u8],
}

impl<'a> Model for Name<'a> {
    ghost use Rattle.std.specs.Prelude.{List, ℕ};

    ghost Value = { List ℕ };

    ghost view = { λ n. n.bytes.now };
}

impl<'a> Name<'a> {
    /// A name of these bytes.
    fn of(bytes: &'a [u8]) -> Self
        ensures { result ≡ bytes.now }
    {
        Name { bytes }
    }

    /// Its bytes.
    pub(crate) fn as_slice(&self) -> &'a [u8]
        ensures { result.now ≡ self.now }
    {
        self.bytes
    }
}

/// No names for so many things.
fn no_names<'a>(alloc: Global, count: usize) -> Result<Vec<Option<Name<'a>>>, AllocError>
    ensures { IfOk result (λ names. names.items ≡ replicate count None) }
{
    let mut names = Vec::with_capacity(alloc, count)?;
    while names.len() < count {
        names.push(None)?;
    }
    Ok(names)
}

/// A symbol gives its name to what it is for.
fn give_name<'a>(names: &mut [Option<Name<'a>>], paired: Paired, symbol: &BorrowedSymbol<'a>)
    ensures { names.new ≡ named paired names.old symbol.now }
{
    if let Some(at) = paired.place_among(symbol.kind, symbol.position) {
        if at < names.len() {
            names[at] = Some(Name::of(symbol.name));
        }
    }
}

/// The names that symbols give to so many things.
pub(crate) fn names_by<'a>(
    alloc: Global,
    paired: Paired,
    count: usize,
    symbols: &'a Symbols,
) -> Result<Vec<Option<Name<'a>>>, AllocError>
    ensures { IfOk result (λ names. names.items ≡ names_by paired count symbols.now) }
{
    let mut names = no_names(alloc, count)?;
    for symbol in symbols.iter() {
        give_name(names.as_mut_slice(), paired, &symbol);
    }
    Ok(names)
}
