//! A claim that is held as it is read, while there is memory for it, and judged at the end.
ghost use Rattle.std.specs.Prelude.{◌≡◌, ℕ, IfErr, IfOk, IfSome, List, Some};
ghost use Rattle.aig_circuit.specs.declared.value.Val.{Val as Value};
ghost use Rattle.aig_lasso.specs.Lasso.{IsLassoVerdict};
ghost use Rattle.aig_lasso.specs.Runs.{longer_by, run_from};
ghost use Rattle.aig_lasso.specs.Runs.{StartedRun};
ghost use Rattle.aig_step.specs.Parts.Lines.{vector_in};
ghost use Rattle.aig_step.specs.Stimulus.{values_of};
ghost use Rattle.aig_verdicts.specs.Parts.Reading.{IsOfClaim, NotJudged, run_of};
ghost use Rattle.aig_witness.specs.Witness.{Claim};

use aig_checked::Checked;
use aig_fault::Stopped;
use aig_lasso::{HeldRun, LassoVerdict, judge_lasso, with_goals};
use std::alloc::Global;

/// A run without steps from the state that the text says, where there is memory for it.
pub(crate) fn hold_first(alloc: Global, text: &[u8], inputs: usize) -> Option<HeldRun>
    ensures { (first : List Value) → values_of text.now ≡ Some first
        → IfSome result (λ run. run ≡ run_from inputs first) }
{
    match HeldRun::from_state(alloc, text, inputs) {
        Ok(run) => run,
        Err(_) => None,
    }
}

/// The run with the step that the text says, where there is memory for it.
pub(crate) fn hold_step(held: Option<HeldRun>, text: &[u8]) -> Option<HeldRun>
    ensures { (run : StartedRun) (given : List Value) → IfSome held (λ begun. begun ≡ run)
        → vector_in run.inputs text.now ≡ Some given
        → IfSome result (λ longer. longer ≡ longer_by run given) }
{
    let Some(mut run) = held else {
        return None;
    };
    match run.push_step(text) {
        Ok(true) => Some(run),
        _ => {
            drop(run); // for the proof
            None
        }
    }
}

/// The verdict on a run that is held, as one that meets the justice property of this number.
fn judge_run(
    alloc: Global,
    checked: &Checked,
    property: u32,
    run: &HeldRun,
) -> Result<LassoVerdict, Stopped>
    ensures ok { IfOk result (λ verdict. (claim : Claim) → IsOfClaim property claim run.now
        → IsLassoVerdict checked.now claim verdict) }
    ensures err { IfErr result (NotJudged property checked.now) }
{
    let copy = checked.copy(alloc)?;
    let goals = with_goals(alloc, copy, property)?;
    let judged = judge_lasso(alloc, &goals, run);
    drop(goals); // for the proof
    Ok(judged?)
}

/// The same, where there was memory to hold it.
pub(crate) fn judge_held(
    alloc: Global,
    checked: &Checked,
    property: u32,
    held: &Option<HeldRun>,
) -> Result<LassoVerdict, Stopped>
    ensures ok { IfOk result (λ verdict. (claim : Claim)
        → IfSome held.now (IsOfClaim property claim) → IsLassoVerdict checked.now claim verdict) }
    ensures err { IfErr result (NotJudged property checked.now) }
{
    match held {
        Some(run) => judge_run(alloc, checked, property, run),
        None => Err(Stopped::OutOfMemory),
    }
}
