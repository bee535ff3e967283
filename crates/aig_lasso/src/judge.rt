//! Lassos, judged.
ghost use Rattle.std.specs.Prelude.{◌≡◌, ◌<◌, ℕ, IfOk, IfSome, List, drop, false, length};
ghost use Rattle.std.specs.Prelude.{option_map, true};
ghost use Rattle.std.specs.List.{AllByRecursion};
ghost use Rattle.aig_circuit.specs.declared.circuit.Circuit.{Circuit as CircuitRecord};
ghost use Rattle.aig_circuit.specs.declared.value.Val.{Val as Value};
ghost use Rattle.aig_meaning.specs.Meaning.{Row as RowRecord};
ghost use Rattle.aig_meaning.specs.Trace.{IsFirstState};
ghost use Rattle.aig_lasso.specs.Judging.{IsLassoFrom, IsVerdictOn};
ghost use Rattle.aig_lasso.specs.Parts.Searching.{HasTrace, StandsBefore, all_met, last_state};
ghost use Rattle.aig_lasso.specs.Parts.Searching.{loop_start, step_from, verdict_by};

use crate::held::HeldRun;
use crate::search::{are_noted, enter_first_state, find_state, note_goals, run_through};
use crate::start::may_start_in;
use crate::verdict::LassoVerdict;
use aig_checked::Checked;
use aig_circuit::{Circuit, OutOfMemory};
use aig_step::{Code, Stepper};
use std::alloc::Global;

/// The state in which the run ends, if all constraints always are 1.
fn find_end(
    alloc: Global,
    stepper: &mut Stepper,
    run: &HeldRun,
) -> Result<Option<Vec<Code>>, OutOfMemory>
    ensures circuit { stepper.new.circuit ≡ stepper.old.circuit }
    ensures end { (c : CircuitRecord) (rows : List RowRecord)
        → HasTrace c stepper.old.circuit run.now rows
        → IfOk result (λ end. option_map (λ codes. codes.items) end ≡ last_state run.now.first rows) }
{
    if !enter_first_state(stepper, run) {
        return Ok(None);
    }
    if !run_through(stepper, run) {
        return Ok(None);
    }
    let end = stepper.state().to_vec(alloc)?;
    Ok(Some(end))
}

/// The first step of the run that begins in this state; the circuit is in that state then.
fn find_step(stepper: &mut Stepper, run: &HeldRun, state: &[Code]) -> Option<usize>
    ensures circuit { stepper.new.circuit ≡ stepper.old.circuit }
    ensures first { (c : CircuitRecord) (rows : List RowRecord)
        → HasTrace c stepper.old.circuit run.now rows → result ≡ step_from state.now 0 rows }
    ensures stands { (c : CircuitRecord) (rows : List RowRecord)
        → HasTrace c stepper.old.circuit run.now rows
        → IfSome result (λ step. StandsBefore c stepper.new run.now rows step) }
    ensures low { IfSome result (λ step. step < length run.now.steps) }
{
    if !enter_first_state(stepper, run) {
        return None;
    }
    find_state(stepper, run, state)
}

/// The first step at which a loop begins, if all constraints always are 1; the circuit is in the
/// state before that step then.
fn find_loop(
    alloc: Global,
    stepper: &mut Stepper,
    run: &HeldRun,
) -> Result<Option<usize>, OutOfMemory>
    ensures circuit { stepper.new.circuit ≡ stepper.old.circuit }
    ensures start { (c : CircuitRecord) (rows : List RowRecord)
        → HasTrace c stepper.old.circuit run.now rows
        → IfOk result (λ found. found ≡ loop_start run.now.first rows) }
    ensures stands { (c : CircuitRecord) (rows : List RowRecord)
        → HasTrace c stepper.old.circuit run.now rows
        → IfOk result (λ found. IfSome found (λ start. StandsBefore c stepper.new run.now rows start)) }
    ensures low { IfOk result (λ found. IfSome found (λ start. start < length run.now.steps)) }
{
    let Some(end) = find_end(alloc, stepper, run)? else {
        return Ok(None);
    };
    let found = find_step(stepper, run, &end);
    drop(end); // for the proof
    Ok(found)
}

/// Runs the loop that begins at this step, and answers whether it meets each goal.
fn meets_goals(
    alloc: Global,
    stepper: &mut Stepper,
    run: &HeldRun,
    start: usize,
) -> Result<bool, OutOfMemory>
    ensures { (c : CircuitRecord) (rows : List RowRecord)
        → StandsBefore c stepper.old run.now rows start → start < length run.now.steps
        → IfOk result (λ meets. meets ≡ all_met (length c.bad) (drop start rows)) }
{
    let goals = stepper.machine().parts().bad.len();
    let mut notes = vec![in alloc; false; goals]?;
    note_goals(stepper, run, start, &mut notes);
    let meets = are_noted(&notes);
    drop(notes); // for the proof
    Ok(meets)
}

fn judge_run(
    alloc: Global,
    stepper: &mut Stepper,
    run: &HeldRun,
) -> Result<LassoVerdict, OutOfMemory>
    ensures { (c : CircuitRecord) (rows : List RowRecord)
        → HasTrace c stepper.old.circuit run.now rows
        → IfOk result (λ verdict. verdict ≡ verdict_by (length c.bad) run.now.first rows) }
{
    let Some(start) = find_loop(alloc, stepper, run)? else {
        return Ok(LassoVerdict::NotConfirmed);
    };
    if !meets_goals(alloc, stepper, run, start)? {
        return Ok(LassoVerdict::NotConfirmed);
    }
    Ok(LassoVerdict::Confirmed(start as u64))
}

/// Whether the circuit has runs like this one: from its first state, with so many inputs.
fn may_run(circuit: &Circuit, run: &HeldRun) -> bool
    ensures first { result ≡ true → IsFirstState circuit.now run.now.first }
    ensures steps { result ≡ true → AllByRecursion
        (λ (given : List Value). length given ≡ length circuit.now.inputs) run.now.steps }
    ensures no { result ≡ false → (start : ℕ)
        → ¬ IsLassoFrom circuit.now run.now.first run.now.steps start }
{
    if run.inputs() != circuit.inputs.len() {
        return false;
    }
    may_start_in(circuit.latches.as_slice(), run.first())
}

/// Tells whether a run of a circuit whose bad states are goals is a lasso: it comes back to a state
/// in which it was, with all constraints kept on the way, and meets each goal from there on. Each
/// step is evaluated twice, and how much memory is taken does not depend on the run.
pub fn judge_lasso(
    alloc: Global,
    goals: &Checked,
    run: &HeldRun,
) -> Result<LassoVerdict, OutOfMemory>
    ensures { IfOk result (IsVerdictOn goals.now run.now.first run.now.steps) }
{
    if !may_run(goals.circuit(), run) {
        return Ok(LassoVerdict::NotConfirmed);
    }
    let mut stepper = Stepper::new(alloc, goals)?;
    let judged = judge_run(alloc, &mut stepper, run);
    drop(stepper); // for the proof
    judged
}
