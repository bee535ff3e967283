//! Refutations of the clauses by a plan, read from a source.
ghost use Rattle.std.specs.Prelude.{◌≡◌, [], ℕ, Bool, IfOk};
ghost use Rattle.aig_cnf.specs.Clauses.{Satisfies};
ghost use Rattle.aig_cuts.specs.Cuts.{cut_clauses};
ghost use Rattle.aig_io.specs.Runs.{Read};
ghost use Rattle.aig_refute.specs.Refuted.{Admits, AreStored};
ghost use Rattle.aig_refute_cuts.specs.Says.{CutRefutationSays};

use crate::clauses::add_planned;
use aig_circuit::Circuit;
use aig_cuts::Cut;
use aig_fault::Stopped;
use aig_io::Source;
use aig_refute::{Checker, RefutationFormat, literals_of, read_refutation};
use std::alloc::{AllocError, Global};

/// A checker that was given the clauses by a plan by which a bad state of a circuit is 1.
fn checker_of(
    alloc: Global,
    format: RefutationFormat,
    plan: &[Cut],
    circuit: &Circuit,
) -> Result<Checker, AllocError>
    ensures admits { IfOk result (λ checker. (a : ℕ → Bool)
        → Satisfies a (cut_clauses plan.now circuit.now) → Admits checker a) }
    ensures stored { IfOk result (AreStored (cut_clauses plan.now circuit.now) []) }
{
    let mut checker = Checker::with_room(alloc, format, literals_of(circuit), &circuit.gates)?;
    checker.add_true()?;
    add_planned(&mut checker, &circuit.gates, plan)?;
    checker.add_bad(alloc, &circuit.bad)?;
    Ok(checker)
}

/// Reads a refutation of the clauses by a plan by which a bad state of a circuit without latches is
/// 1, to its end, or up to a piece with a wrong line. Where unit propagation alone refutes them, it
/// may say anything. The plan need not be right for the circuit, and gates behind its end have no
/// clauses. The error is that a line is wrong, that nothing was refuted, that the source failed, or
/// that memory is refused, as for a literal of the plan that the circuit does not have.
pub fn check_cut_refutation<R: Source>(
    alloc: Global,
    format: RefutationFormat,
    plan: &[Cut],
    circuit: &Circuit,
    refutation: &mut R,
) -> Result<(), Stopped>
    ensures { Read (CutRefutationSays format plan.now circuit.now result)
        (R.history refutation.old) (R.history refutation.new) }
{
    let mut checker = checker_of(alloc, format, plan, circuit)?;
    read_refutation(
        alloc,
        &mut checker,
        format,
        literals_of(circuit),
        refutation,
    )
}
