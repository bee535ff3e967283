//! `aiginfo`: what is counted of a circuit.
ghost use Rattle.std.specs.Prelude.{◌≡◌, ◌<◌, IfOk, length};
ghost use Rattle.aig_io.specs.Runs.{Read};
ghost use Rattle.aig_commands.specs.Counting.{IsInfoText, form_of};
ghost use Rattle.aig_commands.specs.Jobs.{text_of};
ghost use Rattle.aig_commands.specs.Reading.{AtItsEnd, IsUnreadable, ReadSays};

use crate::answer::Answer;
use aig_binary::read_source;
use aig_core::{Keep, Source};
use aig_fault::Stopped;
use aig_info::{Form, info_of};
use std::alloc::Global;

/// How the numbers are written.
fn form_of(json: bool) -> Form
    ensures { result ≡ form_of json }
{
    if json { Form::Json } else { Form::Lines }
}

/// Reads a circuit to its end, as a file of either kind, and counts what it has.
pub(crate) fn read_info<R: Source>(
    alloc: Global,
    request: &aig_command::Info,
    source: &mut R,
) -> Result<Answer, Stopped>
    ensures read { Read (ReadSays (λ answer bytes. IsInfoText request.now bytes (text_of answer))
        (AtItsEnd (IsUnreadable request.now.max_var)) result)
        (R.history source.old) (R.history source.new) }
    ensures some { IfOk result (λ answer. 0 < length (text_of answer)) }
{
    let found = read_source(alloc, source, request.max_var, Keep::Circuit)?;
    let counted = info_of(alloc, found.circuit());
    drop(found); // for the proof
    Ok(Answer::Info(form_of(request.json), counted?))
}
