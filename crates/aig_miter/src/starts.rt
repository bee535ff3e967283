//! Uninitialised latches that start alike.
ghost use Rattle.std.specs.Prelude.{◌≡◌, ◌+◌, ◌*◌, ◌≤◌, length, min, IfOk, OnOk};
ghost use Rattle.std.specs.List.{All};
ghost use Rattle.aig_circuit.specs.declared.circuit.Latch.{Latch as LatchRecord};
ghost use Rattle.aig_circuit.specs.declared.circuit.TheConstants.{LARGEST as largest};
ghost use Rattle.aig_miter.specs.Parts.Comparable.{more_for};
ghost use Rattle.aig_miter.specs.Parts.Moved.{with_starts};
ghost use Rattle.aig_miter.specs.Starts.{free_among, with_equal_starts};

use crate::gates::{put_differences, put_gates_with};
use aig_circuit::{Circuit, Latch, Listing, Lit, Reset, Var};
use aig_image::Steps;
use std::alloc::{AllocError, Global};

/// The literals of uninitialised latches.
pub(crate) fn list_free(alloc: Global, latches: &[Latch]) -> Result<Vec<Lit>, AllocError>
    requires { All (λ (l : LatchRecord). l.var ≤ largest) latches.now }
    ensures { IfOk result (λ literals. literals.items ≡ free_among latches.now) }
{
    let mut literals = Vec::new(alloc);
    for latch in latches {
        match latch.reset {
            Reset::Uninit => literals.push(Lit(2 * latch.var.0))?,
            _ => {}
        }
    }
    Ok(literals)
}

/// Adds to a circuit that latches of these literals are equal, place by place, in the first step.
#[tactic(auto, using(crate::proofs::Sizes::differences_min))]
fn put_equal_starts(
    alloc: Global,
    circuit: &mut Circuit,
    ones: &[Lit],
    others: &[Lit],
    steps: &mut Steps,
) -> Result<(), AllocError>
    requires { circuit.old.max_var + 1 + 4 * min (length ones.now) (length others.now) ≤ largest }
    ensures equal { OnOk result
        (circuit.new ≡ with_equal_starts ones.now others.now circuit.old) }
    ensures counted { steps.new.count
        ≡ steps.old.count + 4 * min (length ones.now) (length others.now) }
{
    steps.add(4 * ones.len().min(others.len()) as u64);
    let later = circuit.max_var + 1;
    let latch = Latch {
        var: Var(later),
        next: Lit(1),
        reset: Reset::Zero,
    };
    let mut unequal = Listing::new(alloc);
    put_differences(later + 1, ones, others, &mut circuit.gates, &mut unequal)?;
    circuit.latches.push(latch)?;
    put_gates_with(
        later + 1 + 3 * unequal.len() as u32,
        Lit(2 * later).negated(),
        unequal.as_slice(),
        &mut circuit.gates,
        &mut circuit.constraints,
    )?;
    circuit.max_var = later + 4 * unequal.len() as u32;
    Ok(())
}

/// The same, where there is a pair.
pub(crate) fn put_starts(
    alloc: Global,
    circuit: &mut Circuit,
    ones: &[Lit],
    others: &[Lit],
    steps: &mut Steps,
) -> Result<(), AllocError>
    requires { circuit.old.max_var + more_for (min (length ones.now) (length others.now))
        ≤ largest }
    ensures alike { OnOk result (circuit.new ≡ with_starts ones.now others.now circuit.old) }
    ensures counted { steps.new.count
        ≡ steps.old.count + 4 * min (length ones.now) (length others.now) }
{
    if ones.len().min(others.len()) == 0 {
        return Ok(());
    }
    put_equal_starts(alloc, circuit, ones, others, steps)
}
