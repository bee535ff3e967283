//! Dumps of witnesses from bytes to bytes.
ghost use Rattle.std.specs.Prelude.{◌++◌, IfErr, IfOk, string_bytes};
ghost use Rattle.aig_commands.specs.WitnessDump.{IsWitnessDumpText};
ghost use Rattle.aig_library.specs.Answers.{DumpAnswers, IsDumpRefused, verdict_outcome};
ghost use Rattle.aig_library.specs.Asked.{simulation};
ghost use Rattle.aig_library.specs.Outcome.{IsPlacedAs, StopsInMemory};

use crate::outcome::{BAD_OPTIONS, Outcome, TOO_SHORT, ending, outcome_of};
use crate::simulation::circuit_of;
use crate::verdicts::verdict_outcome;
use aig_commands::Stopped;
use aig_core::LARGEST;
use aig_dump::{comment_line, judge_and_dump};
use aig_verdicts::WitnessVerdict;
use std::alloc::Global;

/// The verdict on a witness file for the circuit of a model, the same as a comment, and the dump of
/// the run.
fn verdict_and_dump(
    alloc: Global,
    max_var: u32,
    model: &[u8],
    witness: &[u8],
) -> Result<(WitnessVerdict, String, Vec<u8>), Stopped>
    ensures ok { IfOk result (λ made.
        IsWitnessDumpText (simulation 0 max_var) model.now witness.now made.0
        (string_bytes made.1 ++ made.2.items)) }
    ensures err { IfErr result (StopsInMemory
        (IsDumpRefused (simulation 0 max_var) model.now witness.now)) }
{
    let found = circuit_of(alloc, max_var, model)?;
    let (verdict, run) = judge_and_dump(alloc, found, witness)?;
    match comment_line(verdict).to_string(alloc) {
        Ok(comment) => Ok((verdict, comment, run)),
        Err(_refused) => {
            drop(run); // for the proof
            Err(Stopped::OutOfMemory)
        }
    }
}

/// Puts a comment and a run after it at the front of the output, where there is room for both.
fn place_texts(verdict: WitnessVerdict, comment: &[u8], run: &[u8], output: &mut [u8]) -> Outcome
    ensures { IsPlacedAs (verdict_outcome verdict) (comment.now ++ run.now)
        output.old output.new result }
{
    let length = comment.len() + run.len();
    if length > output.len() {
        return ending(TOO_SHORT, 0, length as u64);
    }
    output[..comment.len()].copy_from_slice(comment);
    output[comment.len()..length].copy_from_slice(run);
    verdict_outcome(verdict, length as u64)
}

/// Judges a witness file for the circuit of an AIGER file, and makes the dump of the run that it
/// claims, with the verdict in the first line. The status is `DONE`, with the step, or
/// `NOT_CONFIRMED`; the text is there in both cases. The largest index and the counts of the model
/// are at most `max_var`.
pub fn dump_witness(
    alloc: Global,
    max_var: u32,
    model: &[u8],
    witness: &[u8],
    output: &mut [u8],
) -> Outcome
    ensures { DumpAnswers max_var model.now witness.now output.old output.new result }
{
    if max_var > LARGEST {
        return ending(BAD_OPTIONS, 0, 0);
    }
    match verdict_and_dump(alloc, max_var, model, witness) {
        Ok((verdict, comment, run)) => {
            place_texts(verdict, comment.as_bytes(), run.as_slice(), output)
        }
        Err(stopped) => outcome_of(&stopped),
    }
}
