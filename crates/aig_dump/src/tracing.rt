//! What a simulation writes: its trace, or the dump of that.
ghost use Rattle.std.specs.Prelude.{◌≡◌, Err, false, if◌then◌else◌};
ghost use Rattle.aig_fault.specs.declared.stopped.Stopped.TheVariants.{WriteFailed};
ghost use Rattle.aig_io.specs.Runs.{Transferred};
ghost use Rattle.aig_step.specs.declared.trace.Columns.TheVariants.{Properties};
ghost use Rattle.aig_trace.specs.Taken.{Ran};
ghost use Rattle.aig_dump.specs.Dumped.{DumpSays, TraceSaysAs};

use aig_batch::{simulate_batched, simulate_batched_into};
use aig_core::{Checked, Sink, Source};
use aig_fault::Stopped;
use aig_step::Columns;
use aig_trace::{RowTaker, simulate, simulate_into};
use aig_wave::{WaveMemory, WaveTaker};
use std::alloc::Global;

/// Simulates a circuit and writes the trace: step by step, or as a batch, which is sent once the
/// whole stimulus was read and found right.
pub fn write_trace<R: Source, W: Sink>(
    alloc: Global,
    batch: bool,
    found: &Checked,
    columns: Columns,
    stimulus: &mut R,
    output: &mut W,
) -> Result<(), Stopped>
    ensures stimulus { (R.history stimulus.new).origin ≡ (R.history stimulus.old).origin }
    ensures output { (W.history output.new).origin ≡ (W.history output.old).origin }
    ensures transferred { Transferred (TraceSaysAs batch found.now columns result)
        (R.history stimulus.old) (R.history stimulus.new) (W.history output.old)
        (W.history output.new) }
{
    if batch {
        simulate_batched(alloc, found, columns, stimulus, output)
    } else {
        simulate(alloc, found, columns, stimulus, output)
    }
}

/// Simulates a circuit as `write_trace` does, and hands on the lines of the trace, which has the
/// properties.
fn trace_into<R: Source, T: RowTaker>(
    alloc: Global,
    batch: bool,
    found: &Checked,
    stimulus: &mut R,
    output: &mut T,
) -> Result<(), Stopped>
    requires fine { T.failed output.old ≡ false }
    requires sent { T.is_settled output.old }
    ensures { Ran T.took (TraceSaysAs batch found.now Properties result)
        (R.history stimulus.old) (R.history stimulus.new) output.old output.new
        (T.failed output.new) }
{
    if batch {
        simulate_batched_into(alloc, found, Columns::Properties, stimulus, output)
    } else {
        simulate_into(alloc, found, Columns::Properties, stimulus, output)
    }
}

/// What came of a dump: an output that failed counts first.
fn outcome_of_dump(ran: Result<(), Stopped>, output_failed: bool) -> Result<(), Stopped>
    ensures { result ≡ (if output_failed then Err WriteFailed else ran) }
{
    if output_failed {
        return Err(Stopped::WriteFailed);
    }
    ran
}

/// Simulates a circuit as `write_trace` does, and writes the dump of the trace, which has the
/// properties. The memory for the dump is taken before anything is fetched of the stimulus.
pub fn write_dump<R: Source, W: Sink>(
    alloc: Global,
    batch: bool,
    found: &Checked,
    stimulus: &mut R,
    output: &mut W,
) -> Result<(), Stopped>
    ensures stimulus { (R.history stimulus.new).origin ≡ (R.history stimulus.old).origin }
    ensures transferred { Transferred (DumpSays batch found.now result)
        (R.history stimulus.old) (R.history stimulus.new) (W.history output.old)
        (W.history output.new) }
{
    let Ok(room) = WaveMemory::new(alloc, found) else {
        return Err(Stopped::OutOfMemory);
    };
    let mut wave = WaveTaker::new(room, output);
    let ran = trace_into(alloc, batch, found, stimulus, &mut wave);
    let (sent, _output) = wave.finish(ran.is_ok());
    outcome_of_dump(ran, sent.is_err())
}
