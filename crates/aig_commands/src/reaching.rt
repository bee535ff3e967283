//! `aigunroll --answer` and `--refutation`: a model, and what a solver wrote on its clauses.
ghost use Rattle.std.specs.Prelude.{◌≡◌, ◌<◌, ◌≤◌, IfErr, IfOk, length, OnOk};
ghost use Rattle.aig_circuit.specs.declared.circuit.Circuit.{Circuit as CircuitRecord};
ghost use Rattle.aig_command.specs.Aiger.{most_frames};
ghost use Rattle.aig_command.specs.declared.request.Property.TheVariants.{AnyBad, Justice};
ghost use Rattle.aig_command.specs.declared.request.UnrolledForm.TheVariants.{Clauses};
ghost use Rattle.aig_io.specs.Runs.{Read};
ghost use Rattle.aig_commands.specs.Property.{HasProperty, bad_property, property_model};
ghost use Rattle.aig_unroll.specs.Outcome.{HasClauses};
ghost use Rattle.aig_unroll.specs.Unrolled.{IsTooLarge};
ghost use Rattle.aig_fault.specs.Stopping.{StopsFor};
ghost use Rattle.aig_commands.specs.Jobs.{IsSolvedRefused, IsSolvedText, text_of};
ghost use Rattle.aig_commands.specs.Reaching.{IsModelRefused, IsReachRefused, IsSelectedModel};
ghost use Rattle.aig_commands.specs.Reaching.{IsReachText};
ghost use Rattle.aig_commands.specs.Reading.{AtAnyTime, AtItsEnd, ReadSays};
ghost use Rattle.aig_commands.specs.Refuting.{CanUnroll};
ghost use Rattle.aig_commands.specs.Unrolling.{IsUnrolledFor, NotUnrolledAs};

use crate::answer::Answer;
use crate::property::property_model;
use crate::refuting::read_none_within;
use crate::unrolling::unroll_as;
use aig_binary::read_source;
use aig_command::{Property, Reach, SolverFile, UnrolledForm};
use aig_core::{Checked, Keep, Source};
use aig_fault::Stopped;
use aig_live::FoundLasso;
use aig_replay::find_witness;
use std::alloc::Global;

/// Whether a circuit has clauses, unrolled over so many frames.
fn check_clauses(alloc: Global, selected: &Checked, frames: u32) -> Result<(), Stopped>
    requires { (1 ≤ frames) × (frames ≤ 1000000) }
    ensures ok { OnOk result ((d : CircuitRecord) × IsUnrolledFor AnyBad frames selected.now d
        × HasClauses d) }
    ensures err { IfErr result (StopsFor (NotUnrolledAs (Clauses AnyBad) frames selected.now)) }
{
    let copy = selected.copy(alloc)?;
    let form = UnrolledForm::Clauses {
        property: Property::AnyBad,
    };
    let unrolled = unroll_as(alloc, form, frames, copy)?;
    drop(unrolled); // for the proof
    Ok(())
}

/// The circuit that stands for the property, which has clauses over so many frames.
pub(crate) fn selected_with_clauses(
    alloc: Global,
    found: Checked,
    property: Property,
    frames: u32,
) -> Result<Checked, Stopped>
    requires { (1 ≤ frames) × (frames ≤ 1000000) }
    ensures ok { IfOk result (λ selected. selected ≡ property_model property found) }
    ensures there { OnOk result (HasProperty property found) }
    ensures clauses { IfOk result (λ selected. (d : CircuitRecord)
        × IsUnrolledFor AnyBad frames selected d
        × HasClauses d) }
    ensures err { IfErr result (StopsFor (NotUnrolledAs (Clauses property) frames found)) }
{
    let selected = property_model(alloc, property, found)?;
    match check_clauses(alloc, &selected, frames) {
        Ok(()) => Ok(selected),
        Err(fault) => {
            drop(selected); // for the proof
            Err(fault)
        }
    }
}

/// Reads the model to its end, as a file of either kind, and makes what stands for the property. It
/// fails where its clauses could not be written, if an allocation fails, or if the source does.
/// What a solver wrote is not needed for that.
pub(crate) fn read_selected<R: Source>(
    alloc: Global,
    request: &Reach,
    model: &mut R,
) -> Result<Checked, Stopped>
    requires frames { (1 ≤ request.now.frames) × (request.now.frames ≤ most_frames) }
    ensures read { Read (ReadSays (λ selected bytes. IsSelectedModel request.now bytes selected)
        (AtItsEnd (IsModelRefused request.now)) result) (R.history model.old)
        (R.history model.new) }
    ensures can_unroll { IfOk result (λ selected. CanUnroll selected request.now.frames) }
{
    let found = read_source(alloc, model, request.max_var, Keep::Order)?;
    selected_with_clauses(alloc, found, request.property, request.frames)
}

/// Reads a solver's answer on the clauses of this circuit, and makes the witness in it, of this bad
/// state or of any.
fn read_witness<R: Source>(
    alloc: Global,
    request: &Reach,
    selected: &Checked,
    bad: Option<u32>,
    source: &mut R,
) -> Result<Answer, Stopped>
    requires fits { ¬ IsTooLarge selected.now request.now.frames }
    requires property { request.now.property ≡ bad_property bad }
    ensures read { Read (ReadSays (λ answer bytes.
        IsReachText request.now selected.now bytes (text_of answer))
        (AtAnyTime (IsReachRefused request.now selected.now)) result)
        (R.history source.old) (R.history source.new) }
    ensures some { IfOk result (λ answer. 0 < length (text_of answer)) }
{
    let witness = find_witness(alloc, selected, request.frames, bad, source)?;
    Ok(Answer::Witness(witness))
}

/// The same for the justice property of this number: the lasso in the answer.
fn read_lasso<R: Source>(
    alloc: Global,
    request: &Reach,
    selected: &Checked,
    number: u32,
    source: &mut R,
) -> Result<Answer, Stopped>
    requires fits { ¬ IsTooLarge selected.now request.now.frames }
    requires property { request.now.property ≡ Justice number }
    ensures read { Read (ReadSays (λ answer bytes.
        IsReachText request.now selected.now bytes (text_of answer))
        (AtAnyTime (IsReachRefused request.now selected.now)) result)
        (R.history source.old) (R.history source.new) }
    ensures some { IfOk result (λ answer. 0 < length (text_of answer)) }
{
    let witness = find_witness(alloc, selected, request.frames, None, source)?;
    let lasso = FoundLasso::new(witness, selected.circuit(), number);
    Ok(Answer::Lasso(lasso))
}

/// The same for the property of the request.
fn read_answer<R: Source>(
    alloc: Global,
    request: &Reach,
    selected: &Checked,
    source: &mut R,
) -> Result<Answer, Stopped>
    requires fits { ¬ IsTooLarge selected.now request.now.frames }
    ensures read { Read (ReadSays (λ answer bytes.
        IsReachText request.now selected.now bytes (text_of answer))
        (AtAnyTime (IsReachRefused request.now selected.now)) result)
        (R.history source.old) (R.history source.new) }
    ensures some { IfOk result (λ answer. 0 < length (text_of answer)) }
{
    match request.property {
        Property::AnyBad => read_witness(alloc, request, selected, None, source),
        Property::Bad(number) => read_witness(alloc, request, selected, Some(number), source),
        Property::Justice(number) => read_lasso(alloc, request, selected, number, source),
    }
}

/// Reads what a solver wrote on the clauses of this circuit, and makes what it shows: the witness in
/// an answer, or by a refutation that there is none.
pub(crate) fn read_solved<R: Source>(
    alloc: Global,
    request: &Reach,
    selected: Checked,
    source: &mut R,
) -> Result<Answer, Stopped>
    requires can_unroll { CanUnroll selected request.now.frames }
    ensures read { Read (ReadSays (λ answer bytes.
        IsSolvedText request.now.wrote request.now selected bytes (text_of answer))
        (IsSolvedRefused request.now.wrote request.now selected) result)
        (R.history source.old) (R.history source.new) }
    ensures some { IfOk result (λ answer. 0 < length (text_of answer)) }
{
    match request.wrote {
        SolverFile::Answer => {
            let answer = read_answer(alloc, request, &selected, source);
            drop(selected); // for the proof
            answer
        }
        SolverFile::Refutation => {
            let answer = read_none_within(alloc, request, &selected, source);
            drop(selected); // for the proof
            answer
        }
    }
}
