//! Copies of circuits.
ghost use Rattle.std.specs.Prelude.{◌≡◌, IfOk};

use aig_circuit::{Circuit, Justice, Listing, OutOfMemory, Symbols};
use std::alloc::Global;

/// The same symbols in memory of their own.
pub fn copy_symbols(alloc: Global, symbols: &Symbols) -> Result<Symbols, OutOfMemory>
    ensures { IfOk result (λ copies. copies ≡ symbols.now) }
{
    Ok(symbols.copy(alloc)?)
}

/// The same comment in memory of its own, if there is one.
pub fn copy_comment(
    alloc: Global,
    comment: &Option<Listing<u8>>,
) -> Result<Option<Listing<u8>>, OutOfMemory>
    ensures { IfOk result (λ copy. copy ≡ comment.now) }
{
    match comment {
        Some(bytes) => Ok(Some(bytes.copy(alloc)?)),
        None => Ok(None),
    }
}

/// The same justice properties in memory of their own.
pub fn copy_justice(alloc: Global, justice: &Justice) -> Result<Justice, OutOfMemory>
    ensures { IfOk result (λ copy. copy ≡ justice.now) }
{
    Ok(Justice {
        sizes: justice.sizes.copy(alloc)?,
        literals: justice.literals.copy(alloc)?,
    })
}

pub(crate) fn copy_circuit(circuit: &Circuit) -> Result<Circuit, OutOfMemory>
    ensures { IfOk result (λ copy. copy ≡ circuit.now) }
{
    Ok(circuit.clone()?)
}
