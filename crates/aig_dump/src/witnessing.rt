//! The dump of a witness's run, from a source to a sink.
ghost use Rattle.std.specs.Prelude.{◌≡◌, ◌++◌, IfErr, IfOk, MatchResult, OnErr, OnOk};
ghost use Rattle.aig_io.specs.Devices.{gave_all, took, TookBeginning};
ghost use Rattle.aig_io.specs.Runs.{AtEnd, Read};
ghost use Rattle.aig_claims.specs.RunDump.{HasNoDump, comment_line};
ghost use Rattle.aig_dump.specs.InMemory.{JudgedRun};

use crate::run_dump::{comment_line, judge_and_dump};
use aig_core::{Checked, DeviceFault, Output, ReadError, Sink, Source, read_all};
use aig_fault::Stopped;
use aig_verdicts::WitnessVerdict;
use std::alloc::Global;

/// The bytes of a witness file.
fn read_witness<R: Source>(
    alloc: Global,
    found: &Checked,
    witness: &mut R,
) -> Result<Vec<u8>, Stopped>
    ensures ok { IfOk result (λ bytes. R.history witness.new
        ≡ gave_all bytes.items (R.history witness.old)) }
    ensures err { IfErr result (λ stopped. Read (HasNoDump found.now stopped)
        (R.history witness.old) (R.history witness.new)) }
{
    match read_all(alloc, witness) {
        Ok(bytes) => Ok(bytes),
        Err(ReadError::Source) => Err(Stopped::ReadFailed),
        Err(ReadError::OutOfMemory) => Err(Stopped::OutOfMemory),
    }
}

/// Reads a witness file to its end, judges it, and makes the dump of the run that it claims.
pub fn read_and_dump<R: Source>(
    alloc: Global,
    found: Checked,
    witness: &mut R,
) -> Result<(WitnessVerdict, Vec<u8>), Stopped>
    ensures read { Read (λ bytes ending. MatchResult result
        (λ made. (ending ≡ AtEnd) × JudgedRun found made.0 bytes made.1.items)
        (λ stopped. HasNoDump found stopped bytes ending))
        (R.history witness.old) (R.history witness.new) }
{
    match read_witness(alloc, &found, witness) {
        Ok(bytes) => {
            let made = judge_and_dump(alloc, found, bytes.as_slice());
            drop(bytes); // for the proof
            made
        }
        Err(stopped) => {
            drop(found); // for the proof
            Err(stopped)
        }
    }
}

/// Sends the verdict and the dump of a run. It fails only where the sink fails, which then took a
/// beginning of them.
pub fn send_dump<W: Sink>(
    verdict: WitnessVerdict,
    run: &[u8],
    sink: &mut W,
) -> Result<(), DeviceFault>
    ensures ok { OnOk result (W.history sink.new
        ≡ took (comment_line verdict ++ run.now) (W.history sink.old)) }
    ensures err { OnErr result
        (TookBeginning (comment_line verdict ++ run.now) (W.history sink.old)
        (W.history sink.new)) }
{
    let mut output = Output::new(sink);
    comment_line(verdict).put(&mut output);
    output.put(run);
    let (sent, _sink) = output.finish();
    Ok(sent?)
}
