//! `aigsim`: simulation of AIGER files, and witness files that are judged.
ghost use Rattle.std.specs.Prelude.{◌≡◌, false};
ghost use Rattle.aig_io.specs.Runs.{Transferred};
ghost use Rattle.aig_commands.specs.Outcome.{TransferredFor};
ghost use Rattle.aig_commands.specs.WitnessDump.{RunDumpSays};
ghost use Rattle.aig_commands.specs.Simulation.{task_of};
ghost use Rattle.aig_tools.specs.SimulationOutcome.{TaskSays, without_verdict};

use aig_command::Sim;
use aig_commands::{Stopped, Task, judge, read_source, task_of};
use aig_core::{Checked, Keep, Sink, Source};
use aig_dump::{read_and_dump, send_dump, write_dump, write_trace};
use aig_verdicts::WitnessVerdict;
use std::alloc::Global;

/// Judges a witness file, and writes the verdict in a comment and the dump of the run. The file is
/// read to its end first, and all of the dump is made before anything is sent.
fn dump_run<R: Source, W: Sink>(
    alloc: Global,
    found: Checked,
    witness: &mut R,
    output: &mut W,
) -> Result<WitnessVerdict, Stopped>
    ensures transferred { Transferred (RunDumpSays found result)
        (R.history witness.old) (R.history witness.new) (W.history output.old)
        (W.history output.new) }
{
    let (verdict, run) = read_and_dump(alloc, found, witness)?;
    let sent = send_dump(verdict, run.as_slice(), output);
    drop(run); // for the proof
    sent?;
    Ok(verdict)
}

/// Runs the task; a verdict only for witnesses, which stand in the place of the stimulus.
pub(crate) fn perform<R: Source, W: Sink>(
    alloc: Global,
    task: Task,
    found: Checked,
    stimulus: &mut R,
    output: &mut W,
) -> Result<Option<WitnessVerdict>, Stopped>
    ensures stimulus { (R.history stimulus.new).origin ≡ (R.history stimulus.old).origin }
    ensures transferred { Transferred (TaskSays task found result)
        (R.history stimulus.old) (R.history stimulus.new) (W.history output.old)
        (W.history output.new) }
{
    match task {
        Task::Trace { batch, columns } => {
            let written = write_trace(alloc, batch, &found, columns, stimulus, output);
            drop(found); // for the proof
            without_verdict(written)
        }
        Task::Dump { batch } => {
            let written = write_dump(alloc, batch, &found, stimulus, output);
            drop(found); // for the proof
            without_verdict(written)
        }
        Task::Verdict => Ok(Some(judge(alloc, found, stimulus, output)?)),
        Task::RunDump => Ok(Some(dump_run(alloc, found, stimulus, output)?)),
    }
}

/// An answer of one who asks for no verdict.
pub(crate) fn without_verdict(done: Result<(), Stopped>) -> Result<Option<WitnessVerdict>, Stopped>
    ensures { result ≡ without_verdict done }
{
    match done {
        Ok(()) => Ok(None),
        Err(stopped) => Err(stopped),
    }
}

/// Reads the model to its end, then writes the trace of the stimulus, or the dump of it, step by
/// step or as a batch. Nothing is fetched of the stimulus before the whole model was read and found
/// right. It fails if a device or an allocation fails, if the model is no file of a circuit, or at
/// a bad line of the stimulus; what was written by then stands, of a batch nothing unless the
/// output fails.
pub fn run_sim<M: Source, R: Source, W: Sink>(
    alloc: Global,
    request: &Sim,
    model: &mut M,
    stimulus: &mut R,
    output: &mut W,
) -> Result<(), Stopped>
    requires traced { request.now.witness ≡ false }
    ensures transferred { TransferredFor request.now
        (λ found. TaskSays (task_of request.now) found (without_verdict result)) result
        (M.history model.old) (M.history model.new)
        (R.history stimulus.old) (R.history stimulus.new) (W.history output.old)
        (W.history output.new) }
{
    let found = read_source(alloc, model, request.max_var, Keep::Order)?;
    perform(alloc, task_of(request), found, stimulus, output)?;
    Ok(())
}
