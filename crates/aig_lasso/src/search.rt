//! The loop of a run, and the goals that it meets, looked for step by step.
ghost use Rattle.std.specs.Prelude.{◌≡◌, ◌<◌, IfSome, List, drop, length, map, true};
ghost use Rattle.std.specs.List.{All};
ghost use Rattle.aig_circuit.specs.declared.circuit.Circuit.{Circuit as CircuitRecord};
ghost use Rattle.aig_meaning.specs.Meaning.{Row as RowRecord, literal_value};
ghost use Rattle.aig_meaning.specs.Trace.{state_after};
ghost use Rattle.aig_step.specs.Parts.Stepping.{row_of};
ghost use Rattle.aig_step.specs.Parts.Tables.{IsLiteralBelow, read_from};
ghost use Rattle.aig_witness.specs.Parts.Witnessing.{are_ones};
ghost use Rattle.aig_lasso.specs.Parts.Searching.{HasTrace, StandsBefore, TookRow, all_hold};
ghost use Rattle.aig_lasso.specs.Parts.Searching.{are_noted, notes_after, notes_with, are_same_values};
ghost use Rattle.aig_lasso.specs.Parts.Searching.{step_from};

use crate::held::HeldRun;
use aig_circuit::Lit;
use aig_step::{Code, Stepper, Table};
use aig_witness::{are_ones, is_one};

/// Enters the first state of the run, and answers whether the circuit has so many latches.
pub(crate) fn enter_first_state(stepper: &mut Stepper, run: &HeldRun) -> bool
    ensures circuit { stepper.new.circuit ≡ stepper.old.circuit }
    ensures entered { (c : CircuitRecord) (rows : List RowRecord)
        → HasTrace c stepper.old.circuit run.now rows
        → (result ≡ true) × StandsBefore c stepper.new run.now rows 0 }
{
    stepper.read_state(run.first())
}

/// Takes the step of this number, and answers whether the circuit has so many inputs.
fn take_step(stepper: &mut Stepper, run: &HeldRun, number: usize) -> bool
    requires { number < length run.now.steps }
    ensures circuit { stepper.new.circuit ≡ stepper.old.circuit }
    ensures took { (c : CircuitRecord) (rows : List RowRecord)
        → StandsBefore c stepper.old run.now rows number
        → (result ≡ true) × TookRow c stepper.new run.now rows number }
{
    if !stepper.evaluate_text(run.step(number)) {
        return false;
    }
    stepper.enter_next_state();
    true
}

/// Whether all constraints are 1 in the step that was taken last.
fn constraints_hold(stepper: &Stepper) -> bool
    ensures { result ≡ are_ones (row_of stepper.now).constraints }
{
    let constraints = stepper.machine().parts().constraints.as_slice();
    are_ones(constraints, stepper.values())
}

/// Runs to the end of the run while all constraints are 1, and answers whether they always are.
pub(crate) fn run_through(stepper: &mut Stepper, run: &HeldRun) -> bool
    ensures circuit { stepper.new.circuit ≡ stepper.old.circuit }
    ensures held { (c : CircuitRecord) (rows : List RowRecord)
        → StandsBefore c stepper.old run.now rows 0 → result ≡ all_hold rows }
    ensures end { (c : CircuitRecord) (rows : List RowRecord)
        → StandsBefore c stepper.old run.now rows 0 → result ≡ true
        → stepper.new.state ≡ state_after run.now.first rows }
{
    for step in 0..run.count() {
        if !take_step(stepper, run, step) {
            return false;
        }
        if !constraints_hold(stepper) {
            return false;
        }
    }
    true
}

/// Whether two states are the same; x is x.
fn are_same(left: &[Code], right: &[Code]) -> bool
    ensures { result ≡ are_same_values left.now right.now }
{
    if left.len() != right.len() {
        return false;
    }
    for place in 0..left.len() {
        if left[place].value() != right[place].value() {
            return false;
        }
    }
    true
}

/// Runs on until the circuit is in this state, and answers which step is next then.
pub(crate) fn find_state(stepper: &mut Stepper, run: &HeldRun, state: &[Code]) -> Option<usize>
    ensures circuit { stepper.new.circuit ≡ stepper.old.circuit }
    ensures first { (c : CircuitRecord) (rows : List RowRecord)
        → StandsBefore c stepper.old run.now rows 0 → result ≡ step_from state.now 0 rows }
    ensures stands { (c : CircuitRecord) (rows : List RowRecord)
        → StandsBefore c stepper.old run.now rows 0
        → IfSome result (λ step. StandsBefore c stepper.new run.now rows step) }
    ensures low { IfSome result (λ step. step < length run.now.steps) }
{
    for step in 0..run.count() {
        if are_same(stepper.state(), state) {
            return Some(step);
        }
        if !take_step(stepper, run, step) {
            return None;
        }
    }
    None
}

/// Notes which goals are 1.
fn note_ones(goals: &[Lit], values: &Table, notes: &mut [bool])
    requires room { length notes.old ≡ length goals.now }
    requires below { All (IsLiteralBelow (length values.now)) goals.now }
    ensures { notes.new
        ≡ notes_with notes.old (map (literal_value (read_from values.now)) goals.now) }
{
    for place in 0..goals.len() {
        if is_one(values.value(goals[place])) {
            notes[place] = true;
        }
    }
}

/// Runs from this step to the end of the run, and notes which goals are 1.
pub(crate) fn note_goals(stepper: &mut Stepper, run: &HeldRun, start: usize, notes: &mut [bool])
    requires { length notes.old ≡ length stepper.old.circuit.bad }
    ensures { (c : CircuitRecord) (rows : List RowRecord)
        → StandsBefore c stepper.old run.now rows start
        → notes.new ≡ notes_after notes.old (drop start rows) }
{
    for step in start..run.count() {
        if !take_step(stepper, run, step) {
            return;
        }
        let goals = stepper.machine().parts().bad.as_slice();
        note_ones(goals, stepper.values(), notes);
    }
}

/// Whether each goal was noted.
pub(crate) fn are_noted(notes: &[bool]) -> bool
    ensures { result ≡ are_noted notes.now }
{
    for is_met in notes {
        if !*is_met {
            return false;
        }
    }
    true
}
