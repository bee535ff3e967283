//! `aigsim --witness`: a witness file, judged for the circuit of a model.
ghost use Rattle.std.specs.Prelude.{◌≡◌, OnErr, OnOk, true};
ghost use Rattle.aig_io.specs.Devices.{took, TookBeginning};
ghost use Rattle.aig_io.specs.Runs.{Transferred};
ghost use Rattle.aig_fault.specs.Words.{message_text};
ghost use Rattle.aig_command.specs.Answer.{IsWitnessAlone};
ghost use Rattle.aig_commands.specs.Outcome.{TransferredFor};
ghost use Rattle.aig_commands.specs.WitnessOutcome.{answer_line, AnswerSays};

use crate::answer::send_message;
use aig_binary::read_source;
use aig_command::Sim;
use aig_core::{Checked, DeviceFault, Keep, Sink, Source};
use aig_fault::{Message, Stopped};
use aig_lasso::LassoVerdict;
use aig_verdicts::{WitnessVerdict, judge_witness};
use aig_witness::Verdict;
use std::alloc::Global;

/// The line of a verdict.
fn answer_line(verdict: WitnessVerdict) -> Message
    ensures { message_text result ≡ answer_line verdict }
{
    match verdict {
        WitnessVerdict::BadState(Verdict::Confirmed(step))
        | WitnessVerdict::Justice(LassoVerdict::Confirmed(step)) => {
            Message::around("confirmed ", step, "\n")
        }
        _ => Message::new("not confirmed\n"),
    }
}

/// Sends the line of a verdict. It fails only where the sink fails, which then took a beginning of
/// the line.
fn send_answer<W: Sink>(verdict: WitnessVerdict, sink: &mut W) -> Result<(), DeviceFault>
    ensures ok { OnOk result (W.history sink.new ≡ took (answer_line verdict)
        (W.history sink.old)) }
    ensures err { OnErr result (TookBeginning (answer_line verdict)
        (W.history sink.old) (W.history sink.new)) }
{
    send_message(&answer_line(verdict), sink)
}

/// Judges a witness file for a circuit, of a bad state or of a justice property, and writes the
/// verdict in a line. Nothing is sent before all of the file was judged. It fails if a device or an
/// allocation fails, at the first wrong line, or if the property has too many goals. Only an output
/// that fails may have taken a beginning of the line.
pub fn judge<R: Source, W: Sink>(
    alloc: Global,
    found: Checked,
    witness: &mut R,
    output: &mut W,
) -> Result<WitnessVerdict, Stopped>
    ensures transferred { Transferred (AnswerSays found result)
        (R.history witness.old) (R.history witness.new) (W.history output.old)
        (W.history output.new) }
{
    let judged = judge_witness(alloc, &found, witness);
    drop(found); // for the proof
    let verdict = judged?;
    send_answer(verdict, output)?;
    Ok(verdict)
}

/// Reads the model to its end, then judges the witness file, and writes the verdict in a line.
/// Nothing is fetched of the witness file before the whole model was read and found right, and
/// nothing is sent before all of the witness file was judged. It fails if a device or an allocation
/// fails, if the model is no file of a circuit, at the first wrong line of the witness file, or if
/// the property that it names has too many goals. Only an output that fails may have taken a beginning of the line.
pub fn run_witness<M: Source, R: Source, W: Sink>(
    alloc: Global,
    request: &Sim,
    model: &mut M,
    witness: &mut R,
    output: &mut W,
) -> Result<WitnessVerdict, Stopped>
    requires asked { request.now.witness ≡ true }
    requires alone { IsWitnessAlone request.now }
    ensures transferred { TransferredFor request.now (λ found. AnswerSays found result) result
        (M.history model.old) (M.history model.new)
        (R.history witness.old) (R.history witness.new) (W.history output.old)
        (W.history output.new) }
{
    let found = read_source(alloc, model, request.max_var, Keep::Order)?;
    judge(alloc, found, witness, output)
}
