//! Outputs go, and then what they alone needed.
ghost use Rattle.std.specs.Prelude.{◌≡◌, IfOk};
ghost use Rattle.aig_reduce.specs.Reduced.{IsReduced, without_outputs};

use aig_checked::Ordered;
use aig_circuit::{Circuit, Listing, OutOfMemory, Symbols};
use aig_simplify::simplify;
use std::alloc::Global;

/// The circuit without its outputs, and so without names.
fn drop_outputs(alloc: Global, ordered: Ordered) -> Ordered
    ensures { result ≡ without_outputs ordered }
{
    let checked = ordered.into_checked();
    let circuit = checked.into_circuit();
    Ordered::from_well_ordered(Circuit {
        outputs: Listing::new(alloc),
        symbols: Symbols::new(alloc),
        ..circuit
    })
}

/// What is left of a circuit for its bad states and its constraints: it is simplified, and outputs
/// are not looked at. Inputs and latches keep their variables, so what satisfies the clauses of the
/// one gives their values for the other.
pub fn reduce(alloc: Global, ordered: Ordered) -> Result<Ordered, OutOfMemory>
    ensures { IfOk result (λ d. IsReduced ordered d) }
{
    simplify(alloc, drop_outputs(alloc, ordered).into_checked())
}
