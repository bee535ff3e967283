//! Symbols at their new positions.
ghost use Rattle.std.specs.Prelude.{◌≡◌, ◌∷◌, ◌++◌, [], IfOk, OnOk};
ghost use Rattle.aig_select.specs.Parts.Places.{place_by};
ghost use Rattle.aig_select.specs.Selection.{moved_symbols};

use crate::staying::place_at;
use aig_circuit::{BorrowedSymbol, Kind, Symbols};
use std::alloc::{AllocError, Global};

/// The new positions of all that symbols name: constraints keep theirs, and so do fairness
/// constraints, if they stay.
#[derive(Drop)]
pub(crate) struct Places {
    pub(crate) inputs: Vec<Option<u32>>,
    pub(crate) latches: Vec<Option<u32>>,
    pub(crate) outputs: Vec<Option<u32>>,
    pub(crate) bad: Vec<Option<u32>>,
    pub(crate) justice: Vec<Option<u32>>,
    pub(crate) is_fair: bool,
}

impl Places {
    fn place(&self, kind: Kind, position: u32) -> Option<u32>
        ensures { result ≡ place_by self.now kind position }
    {
        match kind {
            Kind::Input => place_at(&self.inputs, position),
            Kind::Latch => place_at(&self.latches, position),
            Kind::Output => place_at(&self.outputs, position),
            Kind::Bad => place_at(&self.bad, position),
            Kind::Constraint => Some(position),
            Kind::Justice => place_at(&self.justice, position),
            Kind::Fairness if self.is_fair => Some(position),
            Kind::Fairness => None,
        }
    }
}

/// Adds a symbol at its new position, if it has one.
fn push_moved(
    moved: &mut Symbols,
    places: &Places,
    symbol: &BorrowedSymbol,
) -> Result<(), AllocError>
    ensures { OnOk result (moved.new
        ≡ moved.old ++ moved_symbols (place_by places.now) (symbol.now ∷ [])) }
{
    match places.place(symbol.kind, symbol.position) {
        Some(position) => moved.push(&BorrowedSymbol {
            kind: symbol.kind,
            position,
            name: symbol.name,
        }),
        None => Ok(()),
    }
}

/// The symbols of what stays, in their order.
pub(crate) fn move_symbols(
    alloc: Global,
    places: &Places,
    symbols: &Symbols,
) -> Result<Symbols, AllocError>
    ensures { IfOk result (λ moved. moved ≡ moved_symbols (place_by places.now) symbols.now) }
{
    let mut moved = Symbols::new(alloc);
    for symbol in symbols.iter() {
        push_moved(&mut moved, places, &symbol)?;
    }
    Ok(moved)
}
