//! Plans that are right.
ghost use Rattle.std.specs.Prelude.{IfOk};
ghost use Rattle.aig_cuts.specs.Cuts.{IsCutOf};

use crate::check::is_cut;
use crate::cut::Cut;
use crate::finder::find_cuts;
use aig_checked::Ordered;
use aig_circuit::{Listing, OutOfMemory};
use std::alloc::{AllocError, Global};

/// The plan by which each gate has its own clauses.
fn plain_cuts(alloc: Global, circuit: &Ordered) -> Result<Vec<Cut>, AllocError>
    ensures { IfOk result (λ plan. IsCutOf plan.items circuit.now) }
{
    let gates = circuit.as_checked().circuit().gates.len();
    let plan = vec![in alloc; Cut::Plain; gates]?;
    Ok(plan)
}

/// A plan for the clauses of a circuit, in which multiplexers are choices where their gates are
/// used by nothing else. It fails only where an allocation does.
pub fn cuts_of(alloc: Global, circuit: &Ordered) -> Result<Listing<Cut>, OutOfMemory>
    ensures { IfOk result (λ plan. IsCutOf plan circuit.now) }
{
    let found = find_cuts(alloc, circuit.as_checked().circuit())?;
    if is_cut(&found, circuit) {
        return Ok(Listing::from_vec(found));
    }
    drop(found);
    Ok(Listing::from_vec(plain_cuts(alloc, circuit)?))
}
