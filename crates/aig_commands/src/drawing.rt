//! `aigtodot`: a picture of a circuit.
ghost use Rattle.std.specs.Prelude.{◌≡◌, ◌≤◌, IfErr, IfOk, None};
ghost use Rattle.aig_circuit.specs.Wellformed.{IsWellFormed};
ghost use Rattle.aig_cone.specs.Counts.{gates_in};
ghost use Rattle.aig_dot.specs.Subject.{IsPictureOf, IsTooLarge};
ghost use Rattle.aig_io.specs.Runs.{Read};
ghost use Rattle.aig_commands.specs.Drawing.{missing_place, reach_for, subject_of};
ghost use Rattle.aig_commands.specs.Jobs.{CanDo, MakesPicture};
ghost use Rattle.aig_commands.specs.Reading.{AtItsEnd, IsUnreadable, ReadSays};

use crate::answer::Answer;
use crate::job::Job;
use crate::refusal::Refusal;
use aig_binary::read_source;
use aig_command::ToDot;
use aig_cone::Reach;
use aig_core::{Circuit, Keep, Source};
use aig_dot::{NotDrawn, Part, Subject, picture_of};
use aig_fault::Stopped;
use std::alloc::Global;

fn reach_for(all_steps: bool) -> Reach
    ensures { result ≡ reach_for all_steps }
{
    if all_steps {
        Reach::AllSteps
    } else {
        Reach::OneStep
    }
}

/// What is drawn.
fn subject_of(request: &ToDot) -> Subject
    ensures { result ≡ subject_of request.now }
{
    match request.cone {
        Some(place) => Subject::Cone(Part {
            kind: place.kind,
            position: place.position,
            reach: reach_for(request.all_steps),
        }),
        None => Subject::Whole,
    }
}

/// The place of which a cone is asked for, where the circuit has it not.
fn missing_place(request: &ToDot, circuit: &Circuit) -> Option<Refusal>
    ensures { result ≡ missing_place request.now circuit.now }
{
    let place = request.cone?;
    if subject_of(request).is_in(circuit) {
        return None;
    }
    Some(Refusal::NotThere {
        kind: place.kind,
        position: place.position,
    })
}

/// Reads a circuit to its end, as a file of either kind, and finds what a picture has of it, or
/// refuses a place that is not there or too many gates.
pub(crate) fn read_drawing<R: Source>(
    alloc: Global,
    request: &ToDot,
    source: &mut R,
) -> Result<Job, Stopped>
    ensures read { Read (ReadSays (λ next bytes. MakesPicture request.now bytes next)
        (AtItsEnd (IsUnreadable request.now.max_var)) result)
        (R.history source.old) (R.history source.new) }
    ensures can_do { IfOk result CanDo }
{
    let found = read_source(alloc, source, request.max_var, Keep::Circuit)?;
    if let Some(refusal) = missing_place(request, found.circuit()) {
        drop(found); // for the proof
        return Ok(Job::Refuse(refusal));
    }
    match picture_of(
        alloc,
        found.circuit(),
        subject_of(request),
        request.gates as usize,
    ) {
        Ok(picture) => Ok(Job::Write(Answer::Picture {
            picture,
            circuit: found,
        })),
        Err(NotDrawn::TooLarge(gates)) => {
            drop(found); // for the proof
            Ok(Job::Refuse(Refusal::TooManyGates(gates as u64)))
        }
        Err(NotDrawn::OutOfMemory) => {
            drop(found); // for the proof
            Err(Stopped::OutOfMemory)
        }
    }
}
