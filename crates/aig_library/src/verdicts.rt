//! Verdicts on witness files.
ghost use Rattle.std.specs.Prelude.{◌≡◌, IfErr, IfOk};
ghost use Rattle.aig_commands.specs.WitnessOutcome.{IsWitnessAnswer};
ghost use Rattle.aig_library.specs.Answers.{IsWitnessRefused, WitnessAnswers, verdict_outcome};
ghost use Rattle.aig_library.specs.Asked.{simulation};
ghost use Rattle.aig_library.specs.Outcome.{StopsInMemory};

use crate::outcome::{BAD_OPTIONS, DONE, NOT_CONFIRMED, Outcome, ending, outcome_of};
use crate::simulation::circuit_of;
use aig_commands::Stopped;
use aig_core::LARGEST;
use aig_dump::verdict_on;
use aig_lasso::LassoVerdict;
use aig_verdicts::WitnessVerdict;
use aig_witness::Verdict;
use std::alloc::Global;

/// The verdict on a witness file for the circuit of a model.
fn verdict(
    alloc: Global,
    max_var: u32,
    model: &[u8],
    witness: &[u8],
) -> Result<WitnessVerdict, Stopped>
    ensures ok { IfOk result (IsWitnessAnswer (simulation 0 max_var) model.now witness.now) }
    ensures err { IfErr result (StopsInMemory
        (IsWitnessRefused (simulation 0 max_var) model.now witness.now)) }
{
    let found = circuit_of(alloc, max_var, model)?;
    let judged = verdict_on(alloc, &found, witness);
    drop(found); // for the proof
    Ok(judged?)
}

/// The outcome of a verdict, with a text of so many bytes.
pub(crate) fn verdict_outcome(verdict: WitnessVerdict, length: u64) -> Outcome
    ensures { result ≡ verdict_outcome verdict length }
{
    match verdict {
        WitnessVerdict::BadState(Verdict::Confirmed(step))
        | WitnessVerdict::Justice(LassoVerdict::Confirmed(step)) => ending(DONE, step, length),
        _ => ending(NOT_CONFIRMED, 0, length),
    }
}

/// Judges a witness file, of a bad state or of a justice property, for the circuit of an AIGER file.
/// The status is `DONE`, with the step that is bad or at which a loop begins, or `NOT_CONFIRMED`,
/// where all of it is right. The largest index and the counts of the model are at
/// most `max_var`.
pub fn witness(alloc: Global, max_var: u32, model: &[u8], witness: &[u8]) -> Outcome
    ensures { WitnessAnswers max_var model.now witness.now result }
{
    if max_var > LARGEST {
        return ending(BAD_OPTIONS, 0, 0);
    }
    match verdict(alloc, max_var, model, witness) {
        Ok(verdict) => verdict_outcome(verdict, 0),
        Err(stopped) => outcome_of(&stopped),
    }
}
