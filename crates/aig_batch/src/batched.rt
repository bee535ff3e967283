//! A simulation that reads the whole stimulus before it sends anything.
ghost use Rattle.std.specs.Prelude.{◌≡◌, ℕ, List, Err, None, Ok, [], false, if◌then◌else◌, length};
ghost use Rattle.std.specs.Prelude.{true};
ghost use Rattle.std.specs.List.{All};
ghost use Rattle.aig_circuit.specs.declared.circuit.Circuit.{Circuit as CircuitRecord};
ghost use Rattle.aig_io.specs.Runs.{AtEnd, Transferred};
ghost use Rattle.aig_batch.specs.Batched.{BatchSays};
ghost use Rattle.aig_fault.specs.declared.stopped.Stopped.TheVariants.{WriteFailed};
ghost use Rattle.aig_step.specs.Outcome.{first_bad_line};
ghost use Rattle.aig_trace.specs.Taken.{Ran, Taken, Took};
ghost use Rattle.aig_lanes.specs.Parts.Benches.{HasRoomFor};
ghost use Rattle.aig_batch.specs.Parts.RunsRead.{AppendedRuns, SaysEntries, entries_of_groups};
ghost use Rattle.aig_trace.specs.Parts.Tracing.{IsFresh};
ghost use Rattle.aig_lanes.specs.Runs.{IsRunOf};
ghost use Rattle.aig_meaning.specs.Meaning.{MeansTheSame};

use crate::collected::collect;
use crate::front::read_front_groups;
use crate::text_group::run_group;
use aig_checked::Checked;
use aig_fault::Stopped;
use aig_io::{Output, Sink, Source};
use aig_lanes::{Bench, RunGroup};
use aig_step::{Columns, Machine};
use aig_trace::{Lent, MOST_INPUTS, RowTaker, StimulusReader, line_room};
use std::alloc::Global;

/// Puts the texts of groups, one after the other.
fn put_groups<T: RowTaker>(
    output: &mut T,
    machine: &Machine,
    groups: &[RunGroup],
    bench: &mut Bench,
)
    requires runs { All (All (IsRunOf machine.now)) groups.now }
    requires room { All (HasRoomFor machine.now bench.old) groups.now }
    ensures { AppendedRuns T.took machine.now bench.old.shown.columns groups.now output.old
        output.new }
{
    for group in groups {
        run_group(bench, machine, group.as_slice(), output);
    }
}

/// Sends what was put, and answers whether all of it was taken.
fn flushed<T: RowTaker>(mut output: T) -> (Result<(), Stopped>, T)
    ensures took { Took T.took output result.1 [] }
    ensures sent { T.is_settled result.1 }
    ensures outcome { result.0 ≡ (if T.failed result.1 then Err WriteFailed else Ok tt) }
{
    match output.flush() {
        Ok(()) => (Ok(()), output),
        Err(_fault) => (Err(Stopped::WriteFailed), output),
    }
}

/// Sends the text for the front of a stimulus that has no bad line, and the text for what comes
/// after it.
#[inline(never)]
fn trace_good<T: RowTaker>(
    reader: StimulusReader,
    mut output: T,
    groups: &[RunGroup],
    bench: &mut Bench,
    rest: &[u8],
) -> (Result<(), Stopped>, T)
    requires fresh { IsFresh reader }
    requires same { reader.tracing.columns ≡ bench.old.shown.columns }
    requires runs { All (All (IsRunOf reader.tracing.circuit)) groups.now }
    requires room { All (HasRoomFor reader.tracing.circuit bench.old) groups.now }
    ensures taken { (c : CircuitRecord) (bytes : List ℕ) → MeansTheSame c reader.tracing.circuit
        → SaysEntries (length c.inputs) bytes (entries_of_groups groups.now) rest.now
        → first_bad_line c bytes true ≡ None
        → Taken T.took (BatchSays c reader.tracing.columns result.0 bytes AtEnd)
        output result.1 (T.failed result.1) }
    ensures sent { T.is_settled result.1 }
{
    put_groups(&mut output, reader.machine(), groups, bench);
    // No line is bad, so the text is that for all of the rest.
    flushed(reader.put_trace_text(output, rest))
}

/// Sends the text for a stimulus that has no bad line. All memory is taken before the first byte is
/// sent.
fn trace_collected<T: RowTaker>(
    alloc: Global,
    checked: &Checked,
    columns: Columns,
    reader: StimulusReader,
    output: T,
    bytes: &[u8],
) -> (Result<(), Stopped>, T)
    requires fresh { IsFresh reader }
    requires same { MeansTheSame checked.now reader.tracing.circuit }
    requires columns { reader.tracing.columns ≡ columns }
    requires none_bad { first_bad_line checked.now bytes.now true ≡ None }
    requires fine { T.failed output ≡ false }
    requires sent { T.is_settled output }
    ensures taken { Taken T.took (BatchSays checked.now columns result.0 bytes.now AtEnd)
        output result.1 (T.failed result.1) }
    ensures sent { T.is_settled result.1 }
{
    let circuit = checked.circuit();
    if circuit.latches.len() == 0 && circuit.inputs.len() <= MOST_INPUTS {
        // The reader takes all steps side by side, over the ends of runs.
        return flushed(reader.put_trace_text(output, bytes));
    }
    let Ok((groups, rest)) = read_front_groups(alloc, circuit.inputs.len(), bytes) else {
        drop(reader); // for the proof
        return (Err(Stopped::OutOfMemory), output);
    };
    let Ok(mut bench) = Bench::new(
        alloc,
        reader.machine(),
        columns,
        line_room(checked),
        &groups,
    ) else {
        drop(reader); // for the proof
        drop(groups); // for the proof
        return (Err(Stopped::OutOfMemory), output);
    };
    let traced = trace_good(reader, output, &groups, &mut bench, rest);
    drop(groups); // for the proof
    drop(bench); // for the proof
    traced
}

/// Simulates a circuit over a stimulus text, and hands on the lines of the trace, as
/// `simulate_into` does; but the whole stimulus is read, and each line of it found good, before
/// anything is handed on. All memory is taken before that too: beside the stimulus that of what is
/// kept of 256 runs, which are stepped side by side. That is faster than `simulate_into` from some
/// hundred gates on.
// Not built into its callers, whose stack would then hold the rooms for lines several times over.
#[inline(never)]
pub fn simulate_batched_into<R: Source, T: RowTaker>(
    alloc: Global,
    checked: &Checked,
    columns: Columns,
    source: &mut R,
    output: &mut T,
) -> Result<(), Stopped>
    requires fine { T.failed output.old ≡ false }
    requires sent { T.is_settled output.old }
    ensures ran { Ran T.took (BatchSays checked.now columns result)
        (R.history source.old) (R.history source.new) output.old output.new
        (T.failed output.new) }
    ensures sent { T.is_settled output.new }
{
    let Ok(reader) = StimulusReader::new(alloc, checked, columns) else {
        return Err(Stopped::OutOfMemory);
    };
    let bytes = match collect(alloc, checked, source) {
        Ok(bytes) => bytes,
        Err(fault) => {
            drop(reader); // for the proof
            return Err(fault);
        }
    };
    let lent = Lent::new(output);
    let (traced, lent) = trace_collected(alloc, checked, columns, reader, lent, &bytes);
    drop(bytes); // for the proof
    let _output = lent.into_taker();
    traced
}

/// Simulates a circuit over a stimulus text, and writes the trace text, as `simulate_batched_into`
/// says.
#[inline(never)]
pub fn simulate_batched<R: Source, W: Sink>(
    alloc: Global,
    checked: &Checked,
    columns: Columns,
    source: &mut R,
    sink: &mut W,
) -> Result<(), Stopped>
    ensures transferred { Transferred (BatchSays checked.now columns result)
        (R.history source.old) (R.history source.new) (W.history sink.old) (W.history sink.new) }
{
    let mut output = Output::new(sink);
    let traced = simulate_batched_into(alloc, checked, columns, source, &mut output);
    let _sink = output.into_sink();
    traced
}
