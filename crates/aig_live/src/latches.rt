//! The latches that copy and note, and lists of their literals.
ghost use Rattle.std.specs.Prelude.{◌≡◌, ◌+◌, ◌*◌, ◌≤◌, ◌++◌, IfOk, OnOk, length, map};
ghost use Rattle.aig_circuit.specs.declared.circuit.Latch.{Latch as LatchRecord};
ghost use Rattle.aig_circuit.specs.declared.circuit.TheConstants.{LARGEST};
ghost use Rattle.aig_circuit.specs.Literal.{literal_of};
ghost use Rattle.aig_live.specs.WithLoop.{alike, copying, noting, one_for_each};

use crate::gates::negated;
use aig_circuit::{Latch, Lit, Reset, Var};
use std::alloc::{AllocError, Global};

/// The literals that are 1 where each latch has the value of its copy.
pub(crate) fn list_alike(
    alloc: Global,
    latches: &[Latch],
    first: u32,
) -> Result<Vec<Lit>, AllocError>
    requires { first + 3 * length latches.now ≤ LARGEST + 1 }
    ensures { IfOk result (λ all. all.items
        ≡ alike first (map (λ (l : LatchRecord). l.var) latches.now)) }
{
    let mut literals = Vec::with_capacity(alloc, latches.len())?;
    let mut variable = first;
    for latch in latches {
        let _var = latch.var; // for the proof
        literals.push(negated(variable + 2))?;
        variable += 3;
    }
    Ok(literals)
}

/// Adds the literals of the latches for goals.
pub(crate) fn put_mets(
    literals: &mut Vec<Lit>,
    goals: &[Lit],
    first_met: u32,
) -> Result<(), AllocError>
    requires { first_met + length goals.now ≤ LARGEST + 1 }
    ensures { OnOk result (literals.new.items
        ≡ literals.old.items ++ map literal_of (one_for_each first_met goals.now)) }
{
    let mut met = first_met;
    for goal in goals {
        let _literal = goal.0; // for the proof
        literals.push(Lit(2 * met))?;
        met += 1;
    }
    Ok(())
}

/// Adds the latches that are copies.
pub(crate) fn put_copies(
    added: &mut Vec<Latch>,
    latches: &[Latch],
    first: u32,
    first_copy: u32,
) -> Result<(), AllocError>
    requires room { first + 3 * length latches.now ≤ LARGEST + 1 }
    requires copies { first_copy + length latches.now ≤ first }
    ensures { OnOk result (added.new.items
        ≡ added.old.items ++ copying first first_copy (map (λ (l : LatchRecord). l.var) latches.now)) }
{
    let mut variable = first;
    let mut copy = first_copy;
    for latch in latches {
        let _var = latch.var; // for the proof
        added.push(Latch {
            var: Var(copy),
            next: negated(variable + 2),
            reset: Reset::Zero,
        })?;
        variable += 3;
        copy += 1;
    }
    Ok(())
}

/// Adds the latches for goals.
pub(crate) fn put_notes(
    added: &mut Vec<Latch>,
    goals: &[Lit],
    first: u32,
    first_met: u32,
) -> Result<(), AllocError>
    requires room { first + 2 * length goals.now ≤ LARGEST + 1 }
    requires mets { first_met + length goals.now ≤ first }
    ensures { OnOk result (added.new.items
        ≡ added.old.items ++ noting first first_met goals.now) }
{
    let mut variable = first;
    let mut met = first_met;
    for goal in goals {
        let _literal = goal.0; // for the proof
        added.push(Latch {
            var: Var(met),
            next: negated(variable + 1),
            reset: Reset::Zero,
        })?;
        variable += 2;
        met += 1;
    }
    Ok(())
}
