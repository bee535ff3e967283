//! What is counted of lists.
ghost use Rattle.std.specs.Prelude.{◌≡◌, count_by, IfOk};
ghost use Rattle.std.specs.List.{concat};
ghost use Rattle.aig_circuit.specs.declared.circuit.Latch.{Latch as LatchRecord};
ghost use Rattle.aig_circuit.specs.Wellformed.{literal_lists};
ghost use Rattle.aig_info.specs.Info.{is_one, is_uninitialised};

use aig_circuit::{Circuit, Latch, Lit, Reset};
use std::alloc::{AllocError, Global};

fn is_one(reset: Reset) -> bool
    ensures { result ≡ is_one reset }
{
    match reset {
        Reset::Zero => false,
        Reset::One => true,
        Reset::Uninit => false,
    }
}

fn is_uninitialised(reset: Reset) -> bool
    ensures { result ≡ is_uninitialised reset }
{
    match reset {
        Reset::Zero => false,
        Reset::One => false,
        Reset::Uninit => true,
    }
}

/// How many latches start at 1.
pub(crate) fn count_ones(latches: &[Latch]) -> usize
    ensures { result ≡ count_by (λ (l : LatchRecord). is_one l.reset) latches.now }
{
    let mut count = 0;
    for latch in latches {
        if is_one(latch.reset) {
            count += 1;
        }
    }
    count
}

/// How many latches are uninitialised.
pub(crate) fn count_uninitialised(latches: &[Latch]) -> usize
    ensures { result ≡ count_by (λ (l : LatchRecord). is_uninitialised l.reset) latches.now }
{
    let mut count = 0;
    for latch in latches {
        if is_uninitialised(latch.reset) {
            count += 1;
        }
    }
    count
}

/// The literals that a circuit shows, of all its lists.
pub(crate) fn shown_literals(alloc: Global, circuit: &Circuit) -> Result<Vec<Lit>, AllocError>
    ensures { IfOk result (λ literals. literals.items ≡ concat (literal_lists circuit.now)) }
{
    let mut literals = Vec::from_slice(alloc, circuit.outputs.as_slice())?;
    literals.extend_from_slice(circuit.bad.as_slice())?;
    literals.extend_from_slice(circuit.constraints.as_slice())?;
    literals.extend_from_slice(circuit.justice.literals.as_slice())?;
    literals.extend_from_slice(circuit.fairness.as_slice())?;
    Ok(literals)
}
