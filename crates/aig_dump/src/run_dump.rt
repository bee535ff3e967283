//! The dump of the run that a witness file claims.
ghost use Rattle.std.specs.Prelude.{◌≡◌, ◌∷◌, ℕ, IfErr, IfOk, List};
ghost use Rattle.aig_circuit.specs.declared.circuit.Circuit.{Circuit};
ghost use Rattle.aig_fault.specs.Stopping.{StopsFor};
ghost use Rattle.aig_lines.specs.Lines.{Line as LineRecord, line as made_line, lines_of};
ghost use Rattle.aig_fault.specs.Words.{message_text};
ghost use Rattle.aig_step.specs.Stimulus.{text_of};
ghost use Rattle.aig_witness.specs.Witness.{Claim};
ghost use Rattle.aig_claims.specs.LoopMark.{HasNoVariable, marked, with_loop_mark};
ghost use Rattle.aig_claims.specs.RunDump.{IsRunDump, IsShownRun, IsUndumped, comment_line};
ghost use Rattle.aig_dump.specs.InMemory.{JudgedRun, StopsInMemory};
ghost use Rattle.aig_dump.specs.Parts.Showing.{IsRunText, LacksMark, loop_start};
ghost use Rattle.aig_verdicts.specs.Comments.{uncommented};
ghost use Rattle.aig_verdicts.specs.Judged.{IsUnjudged, SaysFor};

use crate::comments::without_comments;
use crate::in_memory::{dump_as, verdict_on};
use crate::marking::{mark_steps, text_of};
use aig_claims::{mark_loop, started_by};
use aig_core::{Checked, OutOfMemory};
use aig_fault::Stopped;
use aig_lasso::LassoVerdict;
use aig_lines::split_line;
use aig_text::Message;
use aig_verdicts::WitnessVerdict;
use aig_witness::Verdict;
use std::alloc::Global;

/// The text of the first line, and what follows it.
fn first_text(bytes: &[u8]) -> (&[u8], &[u8])
    ensures { (l : LineRecord) (ls : List LineRecord) → lines_of bytes.now ≡ l ∷ ls
        → (result.0.now ≡ text_of l) × (lines_of result.1.now ≡ ls) }
{
    match split_line(bytes) {
        Some((line, rest)) => (text_of(line), rest),
        None => (bytes, bytes),
    }
}

/// The text of the third line of a witness file, which is the first state, and what follows it.
fn state_and_steps(witness: &[u8]) -> (&[u8], &[u8])
    ensures { (one two three : LineRecord) (ls : List LineRecord)
        → lines_of witness.now ≡ one ∷ two ∷ three ∷ ls
        → (result.0.now ≡ text_of three) × (lines_of result.1.now ≡ ls) }
{
    let (_version, rest) = first_text(witness);
    let (_property, rest) = first_text(rest);
    first_text(rest)
}

/// The dump of the run from the state of a text, by the steps of another, unless memory is refused.
fn dump_from(
    alloc: Global,
    found: Checked,
    first: &[u8],
    steps: &[u8],
) -> Result<Vec<u8>, OutOfMemory>
    ensures { (claim : Claim) → IsRunText found claim first.now steps.now
        → IfOk result (λ run. IsRunDump found claim run.items) }
{
    let started = started_by(first, found);
    // To take runs side by side wants more stack than the system gives before a program begins.
    let made = dump_as(alloc, false, &started, steps);
    drop(started); // for the proof
    match made {
        Ok(run) => Ok(run),
        // Its steps are no bad stimulus, so memory was refused.
        Err(_refused) => Err(OutOfMemory),
    }
}

/// The dump of a lasso with the mark of its loop, which begins at this step.
fn dump_lasso(
    alloc: Global,
    found: Checked,
    start: u64,
    first: &[u8],
    steps: &[u8],
) -> Result<Vec<u8>, Stopped>
    ensures ok { (claim : Claim) → IsRunText found claim first.now steps.now
        → IfOk result (λ run. IsRunDump (with_loop_mark found) (marked start claim) run.items) }
    ensures err { IfErr result (StopsFor (HasNoVariable found)) }
{
    let marked = mark_loop(found)?;
    match mark_steps(alloc, steps, start) {
        Ok(steps) => {
            let made = dump_from(alloc, marked, first, steps.as_slice());
            drop(steps); // for the proof
            Ok(made?)
        }
        Err(_refused) => {
            drop(marked); // for the proof
            Err(Stopped::OutOfMemory)
        }
    }
}

/// The step at which the loop of a confirmed lasso begins.
fn loop_start(verdict: WitnessVerdict) -> Option<u64>
    ensures { result ≡ loop_start verdict }
{
    match verdict {
        WitnessVerdict::Justice(LassoVerdict::Confirmed(start)) => Some(start),
        _ => None,
    }
}

/// The dump of the run that lines of a witness file with this verdict claim, none of them a comment.
fn dump_said(
    alloc: Global,
    found: Checked,
    verdict: WitnessVerdict,
    said: &[u8],
) -> Result<Vec<u8>, Stopped>
    ensures ok { (claim : Claim) (witness : List ℕ) → said.now ≡ uncommented witness
        → SaysFor found verdict witness claim
        → IfOk result (λ run. IsShownRun found claim verdict run.items) }
    ensures err { IfErr result (StopsFor (LacksMark found verdict)) }
{
    let (first, steps) = state_and_steps(said);
    match loop_start(verdict) {
        Some(start) => dump_lasso(alloc, found, start, first, steps),
        None => Ok(dump_from(alloc, found, first, steps)?),
    }
}

/// The dump of the run that a witness file with this verdict claims.
fn dump_run(
    alloc: Global,
    found: Checked,
    verdict: WitnessVerdict,
    witness: &[u8],
) -> Result<Vec<u8>, Stopped>
    ensures ok { (claim : Claim) → SaysFor found verdict witness.now claim
        → IfOk result (λ run. IsShownRun found claim verdict run.items) }
    ensures err { IfErr result (StopsFor (LacksMark found verdict)) }
{
    match without_comments(alloc, witness) {
        Ok(said) => {
            let made = dump_said(alloc, found, verdict, said.as_slice());
            drop(said); // for the proof
            made
        }
        Err(_refused) => {
            drop(found); // for the proof
            Err(Stopped::OutOfMemory)
        }
    }
}

/// Why there is no dump, where there is no verdict: a wrong line or a property that is too large, or
/// else that memory was refused.
fn reason_for_no_dump(stopped: Stopped) -> Stopped
    ensures { (c : Circuit) (witness : List ℕ) → StopsInMemory (IsUnjudged c witness) stopped
        → StopsFor (IsUndumped c witness) result }
{
    match stopped {
        Stopped::Refused(fault) => Stopped::Refused(fault),
        _ => Stopped::OutOfMemory,
    }
}

/// Judges a witness file for a circuit, and makes the dump of the run that it claims: of a lasso
/// with one signal more, `loop`, which is 1 from the step on at which its loop begins. It fails at
/// the first wrong line, where a justice property has too many goals, where the circuit has no
/// variable left for that signal, or where memory is refused.
pub fn judge_and_dump(
    alloc: Global,
    found: Checked,
    witness: &[u8],
) -> Result<(WitnessVerdict, Vec<u8>), Stopped>
    ensures ok { IfOk result (λ made. JudgedRun found made.0 witness.now made.1.items) }
    ensures err { IfErr result (StopsFor (IsUndumped found witness.now)) }
{
    match verdict_on(alloc, &found, witness) {
        Ok(verdict) => Ok((verdict, dump_run(alloc, found, verdict, witness)?)),
        Err(stopped) => {
            drop(found); // for the proof
            Err(reason_for_no_dump(stopped))
        }
    }
}

/// The verdict as a comment, which is the first line of a dump.
pub fn comment_line(verdict: WitnessVerdict) -> Message
    ensures { message_text result ≡ comment_line verdict }
{
    match verdict {
        WitnessVerdict::BadState(Verdict::Confirmed(step))
        | WitnessVerdict::Justice(LassoVerdict::Confirmed(step)) => {
            Message::around("$comment confirmed ", step, " $end\n")
        }
        _ => Message::new("$comment not confirmed $end\n"),
    }
}
