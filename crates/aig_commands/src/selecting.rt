//! `aigselect`: some outputs, bad states and justice properties of a circuit.
ghost use Rattle.std.specs.Prelude.{◌≡◌, IfOk, Some};
ghost use Rattle.aig_io.specs.Runs.{Read};
ghost use Rattle.aig_select.specs.Choice.{choice_of};
ghost use Rattle.aig_select.specs.Selection.{IsSelection};
ghost use Rattle.aig_commands.specs.Jobs.{CanDo, MakesSelection};
ghost use Rattle.aig_commands.specs.Reading.{AtItsEnd, IsUnreadable, ReadSays};
ghost use Rattle.aig_commands.specs.Selecting.{first_missing, no_such};

use crate::conversion::convert_as;
use crate::job::Job;
use crate::refusal::Refusal;
use aig_binary::read_source;
use aig_command::Select;
use aig_core::{Checked, Circuit, Keep, Kind, OutOfMemory, Source};
use aig_fault::Stopped;
use aig_select::{Choice, find_missing, select};
use std::alloc::Global;

fn no_such(kind: Kind, position: u32) -> Refusal
    ensures { Some result ≡ no_such kind position }
{
    Refusal::NotThere { kind, position }
}

/// The first that is chosen and not there.
fn first_missing(request: &Select, circuit: &Circuit) -> Option<Refusal>
    ensures { result ≡ first_missing request.now circuit.now }
{
    if let Some(position) = find_missing(circuit.outputs.len(), request.outputs.as_slice()) {
        return Some(no_such(Kind::Output, position));
    }
    if let Some(position) = find_missing(circuit.bad.len(), request.bad.as_slice()) {
        return Some(no_such(Kind::Bad, position));
    }
    match find_missing(circuit.justice.sizes.len(), request.justice.as_slice()) {
        Some(position) => Some(no_such(Kind::Justice, position)),
        None => None,
    }
}

/// The selection of a circuit.
fn selection_of(alloc: Global, request: &Select, found: Checked) -> Result<Checked, OutOfMemory>
    ensures { IfOk result (IsSelection
        (choice_of request.now.outputs request.now.bad request.now.justice found) found) }
{
    let choice = Choice::by_positions(
        alloc,
        found.circuit(),
        request.outputs.as_slice(),
        request.bad.as_slice(),
        request.justice.as_slice(),
    );
    match choice {
        Ok(choice) => select(alloc, found, &choice),
        Err(refused) => {
            drop(found); // for the proof
            Err(OutOfMemory::from(refused))
        }
    }
}

/// Reads a circuit to its end, as a file of either kind, and makes the selection, or refuses what is
/// not there.
pub(crate) fn read_selection<R: Source>(
    alloc: Global,
    request: &Select,
    source: &mut R,
) -> Result<Job, Stopped>
    ensures read { Read (ReadSays (λ next bytes. MakesSelection request.now bytes next)
        (AtItsEnd (IsUnreadable request.now.max_var)) result)
        (R.history source.old) (R.history source.new) }
    ensures can_do { IfOk result CanDo }
{
    let found = read_source(alloc, source, request.max_var, Keep::Circuit)?;
    if let Some(refusal) = first_missing(request, found.circuit()) {
        drop(found); // for the proof
        return Ok(Job::Refuse(refusal));
    }
    let selection = selection_of(alloc, request, found)?;
    let answer = convert_as(alloc, request.ascii, false, selection)?;
    Ok(Job::Write(answer))
}
