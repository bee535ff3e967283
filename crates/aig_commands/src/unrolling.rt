//! `aigunroll`: copies of a circuit in time, as one circuit or as clauses.
ghost use Rattle.std.specs.Prelude.{◌≡◌, ◌<◌, ◌≤◌, IfErr, IfOk, length, OnOk, true};
ghost use Rattle.aig_fault.specs.Stopping.{StopsFor};
ghost use Rattle.aig_io.specs.Runs.{Read, Transferred};
ghost use Rattle.aig_command.specs.Answer.{HasFrames};
ghost use Rattle.aig_unroll.specs.Outcome.{NotUnrolled};
ghost use Rattle.aig_unroll.specs.Unrolled.{IsTooLarge, IsUnrolled, IsUnsupported};
ghost use Rattle.aig_commands.specs.Jobs.{text_of};
ghost use Rattle.aig_commands.specs.Outcome.{Says};
ghost use Rattle.aig_commands.specs.Reading.{AtItsEnd, ReadSays};
ghost use Rattle.aig_commands.specs.Unrolling.{property_of, IsTextOf, IsUnrolledFor};
ghost use Rattle.aig_commands.specs.Unrolling.{IsUnrollingRefused, IsUnrollingText, IsWritable};
ghost use Rattle.aig_commands.specs.Unrolling.{IsReducedText, IsTextFor, NotUnrolledAs};
ghost use Rattle.aig_commands.specs.Unrolling.{NotWritable};

use crate::answer::Answer;
use crate::property::property_model;
use aig_binary::{Ordered, read_source};
use aig_command::{Property, Unroll, UnrolledForm};
use aig_core::{Checked, Keep, OutOfMemory, Sink, Source};
use aig_cuts::cuts_of;
use aig_fault::Stopped;
use aig_reduce::{check_clauses, reduce};
use aig_simplify::simplify;
use aig_unroll::{Unrolling, unroll};
use std::alloc::Global;

/// The property that is asked for.
fn property_of(form: UnrolledForm) -> Property
    ensures { result ≡ property_of form }
{
    match form {
        UnrolledForm::Clauses { property } => property,
        UnrolledForm::Binary | UnrolledForm::Ascii => Property::AnyBad,
    }
}

/// Whether an unrolled circuit can be written as it is asked for.
fn check_form(form: UnrolledForm, circuit: &Unrolling) -> Result<(), Stopped>
    ensures ok { OnOk result (IsWritable form circuit.now) }
    ensures err { IfErr result (NotWritable form circuit.now) }
{
    match form {
        UnrolledForm::Clauses { property: _ } => circuit.check_clauses(),
        UnrolledForm::Binary | UnrolledForm::Ascii => Ok(()),
    }
}

/// The circuit unrolled over so many frames, ready to be written as it is asked for.
pub(crate) fn unroll_as(
    alloc: Global,
    form: UnrolledForm,
    frames: u32,
    found: Checked,
) -> Result<Unrolling, Stopped>
    requires { (1 ≤ frames) × (frames ≤ 1000000) }
    ensures ok { IfOk result (λ d. IsUnrolledFor (property_of form) frames found d × IsWritable form d) }
    ensures err { IfErr result (StopsFor (NotUnrolledAs form frames found)) }
{
    let selected = property_model(alloc, property_of(form), found)?;
    let circuit = Unrolling::new(alloc, selected, frames)?;
    match check_form(form, &circuit) {
        Ok(()) => Ok(circuit),
        Err(fault) => {
            drop(circuit); // for the proof
            Err(fault)
        }
    }
}

/// Whether an unrolled circuit that is held can be written as it is asked for.
fn check_whole(form: UnrolledForm, circuit: &Ordered) -> Result<(), Stopped>
    ensures ok { OnOk result (IsWritable form circuit.now) }
    ensures err { IfErr result (NotWritable form circuit.now) }
{
    match form {
        UnrolledForm::Clauses { property: _ } => check_clauses(circuit.as_checked().circuit()),
        UnrolledForm::Binary | UnrolledForm::Ascii => Ok(()),
    }
}

/// The circuit unrolled over so many frames, as a whole.
fn unroll_selected(alloc: Global, selected: Checked, frames: u32) -> Result<Ordered, Stopped>
    requires { (1 ≤ frames) × (frames ≤ 1000000) }
    ensures ok { IfOk result (λ d. IsUnrolled selected frames d) }
    ensures supported { OnOk result ((¬ IsUnsupported selected) × (¬ IsTooLarge selected frames)) }
    ensures err { IfErr result (NotUnrolled selected frames) }
{
    let made = unroll(alloc, &selected, frames);
    drop(selected); // for the proof
    made
}

/// What stands for the property that is asked for, unrolled as a whole, where it can be written as
/// it is asked for.
fn unroll_whole(
    alloc: Global,
    form: UnrolledForm,
    frames: u32,
    found: Checked,
) -> Result<Ordered, Stopped>
    requires { (1 ≤ frames) × (frames ≤ 1000000) }
    ensures ok { IfOk result (λ d. IsUnrolledFor (property_of form) frames found d × IsWritable form d) }
    ensures err { IfErr result (StopsFor (NotUnrolledAs form frames found)) }
{
    let selected = property_model(alloc, property_of(form), found)?;
    let circuit = unroll_selected(alloc, selected, frames)?;
    match check_whole(form, &circuit) {
        Ok(()) => Ok(circuit),
        Err(fault) => {
            drop(circuit); // for the proof
            Err(fault)
        }
    }
}

/// The clauses of what is left of an unrolled circuit.
fn reduced_answer(alloc: Global, circuit: Ordered) -> Result<Answer, OutOfMemory>
    ensures text { IfOk result (λ answer. IsReducedText circuit (text_of answer)) }
    ensures some { IfOk result (λ answer. 0 < length (text_of answer)) }
{
    let left = reduce(alloc, circuit)?;
    match cuts_of(alloc, &left) {
        Ok(plan) => Ok(Answer::Clauses {
            plan,
            circuit: left,
        }),
        Err(refused) => {
            drop(left); // for the proof
            Err(refused)
        }
    }
}

/// The text of an unrolled circuit that is simplified: of clauses the outputs are no part.
fn simplified_answer(
    alloc: Global,
    form: UnrolledForm,
    circuit: Ordered,
) -> Result<Answer, OutOfMemory>
    ensures text { IfOk result (λ answer. IsTextFor true form circuit (text_of answer)) }
    ensures some { IfOk result (λ answer. 0 < length (text_of answer)) }
{
    match form {
        UnrolledForm::Clauses { property: _ } => reduced_answer(alloc, circuit),
        UnrolledForm::Binary => {
            let written = simplify(alloc, circuit.into_checked())?;
            Ok(Answer::Binary(written))
        }
        UnrolledForm::Ascii => {
            let written = simplify(alloc, circuit.into_checked())?;
            Ok(Answer::Ascii(written.into_checked()))
        }
    }
}

/// The text of a circuit, unrolled as the request asks.
pub(crate) fn unrolled_answer(
    alloc: Global,
    request: &Unroll,
    found: Checked,
) -> Result<Answer, Stopped>
    requires frames { HasFrames request.now }
    ensures text { IfOk result (λ answer. IsTextOf request.now found (text_of answer)) }
    ensures some { IfOk result (λ answer. 0 < length (text_of answer)) }
    ensures err { IfErr result (StopsFor (NotUnrolledAs request.now.form request.now.frames found)) }
{
    if request.simplify {
        let circuit = unroll_whole(alloc, request.form, request.frames, found)?;
        return Ok(simplified_answer(alloc, request.form, circuit)?);
    }
    let circuit = unroll_as(alloc, request.form, request.frames, found)?;
    Ok(Answer::Unrolled(request.form, circuit))
}

/// Reads a source to its end, and unrolls its circuit as the request asks. It fails if the source
/// or an allocation fails, if the bytes are no file of a circuit, if that has not the property or
/// cannot be unrolled, or if no clauses can be made of it.
pub(crate) fn read_unrolling<R: Source>(
    alloc: Global,
    request: &Unroll,
    source: &mut R,
) -> Result<Answer, Stopped>
    requires frames { HasFrames request.now }
    ensures read { Read (ReadSays (λ answer bytes.
        IsUnrollingText request.now bytes (text_of answer))
        (AtItsEnd (IsUnrollingRefused request.now)) result)
        (R.history source.old) (R.history source.new) }
    ensures some { IfOk result (λ answer. 0 < length (text_of answer)) }
{
    let found = read_source(alloc, source, request.max_var, Keep::Order)?;
    unrolled_answer(alloc, request, found)
}

/// Reads the source to its end, and writes the circuit unrolled as the request asks. Nothing is
/// sent before it is known that only the sink can fail. It fails if a device or an allocation
/// fails, if the bytes are no file of a circuit, if that has not the property or cannot be
/// unrolled, or if no clauses can be made of it. Only a sink that fails may have taken a
/// beginning of what is written.
pub fn run_unroll<R: Source, W: Sink>(
    alloc: Global,
    request: &Unroll,
    source: &mut R,
    sink: &mut W,
) -> Result<(), Stopped>
    requires frames { HasFrames request.now }
    ensures transferred { Transferred (Says (IsUnrollingText request.now)
        (IsUnrollingRefused request.now) result)
        (R.history source.old) (R.history source.new) (W.history sink.old) (W.history sink.new) }
{
    read_unrolling(alloc, request, source)?.write(sink)
}
