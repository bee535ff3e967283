//! Whether a circuit that is held as a whole has clauses.
ghost use Rattle.std.specs.Prelude.{IfErr, OnOk};
ghost use Rattle.aig_unroll.specs.Outcome.{HasClauses, NotInClauses};

use aig_circuit::{Circuit, LARGEST};
use aig_fault::{Kind, Stopped, refused_whole};

/// Whether clauses can be made of an unrolled circuit. Its variables have numbers one larger there,
/// for a solver's numbers of 32 bits with a sign; and without a bad state the clauses could not be
/// satisfied, which is no answer.
pub fn check_clauses(circuit: &Circuit) -> Result<(), Stopped>
    ensures ok { OnOk result (HasClauses circuit.now) }
    ensures err { IfErr result (NotInClauses circuit.now) }
{
    if circuit.bad.is_empty() {
        return Err(refused_whole(Kind::NoBadStates));
    }
    if circuit.max_var >= LARGEST {
        return Err(refused_whole(Kind::TooLargeUnrolled));
    }
    Ok(())
}
