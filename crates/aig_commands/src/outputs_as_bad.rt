//! Outputs as bad states: a property of a file from before AIGER 1.9 as one of that version.
ghost use Rattle.std.specs.Prelude.{◌≡◌, ◌≢◌, [], IfErr, IfOk, map};
ghost use Rattle.aig_fault.specs.declared.fault.Place.TheVariants.{Whole};
ghost use Rattle.aig_fault.specs.declared.kind.Kind.TheVariants.{HasBad};
ghost use Rattle.aig_fault.specs.Stopping.{fault_at, StopsFor};
ghost use Rattle.aig_commands.specs.OutputsAsBad.{kind_as_bad, symbol_as_bad, with_outputs_as_bad};

use aig_core::{BorrowedSymbol, Checked, Circuit, Kind, OutOfMemory, Symbols};
use aig_fault::{Kind as FaultKind, Stopped, refused_whole};
use std::alloc::Global;

/// What becomes of the kind that a symbol names.
fn kind_as_bad(kind: Kind) -> Kind
    ensures { result ≡ kind_as_bad kind }
{
    match kind {
        Kind::Output => Kind::Bad,
        _ => kind,
    }
}

/// The symbols, with those of the outputs as those of the bad states.
fn symbols_as_bad(alloc: Global, symbols: &Symbols) -> Result<Symbols, OutOfMemory>
    ensures { IfOk result (λ changed. changed ≡ map symbol_as_bad symbols.now) }
{
    let mut changed = Symbols::new(alloc);
    changed.reserve(symbols.len(), symbols.as_text().len())?;
    for symbol in symbols.iter() {
        changed.push(&BorrowedSymbol {
            kind: kind_as_bad(symbol.kind),
            position: symbol.position,
            name: symbol.name,
        })?;
    }
    Ok(changed)
}

/// The symbols of the circuit whose outputs become bad states, if it has no bad state yet.
pub(crate) fn symbols_if_free(alloc: Global, circuit: &Circuit) -> Result<Symbols, Stopped>
    ensures ok { IfOk result (λ symbols. (circuit.now.bad ≡ [])
        × (symbols ≡ map symbol_as_bad circuit.now.symbols)) }
    ensures err { IfErr result (StopsFor (λ fault. (fault ≡ fault_at HasBad Whole 0)
        × (circuit.now.bad ≢ []))) }
{
    if !circuit.bad.is_empty() {
        return Err(refused_whole(FaultKind::HasBad));
    }
    Ok(symbols_as_bad(alloc, &circuit.symbols)?)
}

/// The circuit with its outputs as bad states, whose symbols are these.
#[tactic(auto, using(crate::proofs::OutputsAsBad::turned_is_well_formed))]
pub(crate) fn with_outputs_as_bad(circuit: Checked, symbols: Symbols) -> Checked
    requires free { circuit.bad ≡ [] }
    requires named { symbols ≡ map symbol_as_bad circuit.symbols }
    ensures { result ≡ with_outputs_as_bad circuit }
{
    let found = circuit.into_circuit();
    Checked::from_well_formed(Circuit {
        outputs: found.bad,
        bad: found.outputs,
        symbols,
        ..found
    })
}
