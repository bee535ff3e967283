//! A circuit over a stimulus text.
ghost use Rattle.std.specs.Prelude.{◌≡◌, ◌+◌, ◌-◌, ◌^◌, ◌<◌, ◌≤◌, [], ℕ, List};
ghost use Rattle.std.specs.Prelude.{false, length, not, true};
ghost use Rattle.aig_io.specs.Runs.{Transferred};
ghost use Rattle.aig_lines.specs.Feeders.{HasFoldedBytes, IsInitial};
ghost use Rattle.aig_lines.specs.Feeding.{Feeding, fold_bytes};
ghost use Rattle.aig_step.specs.Outcome.{TraceSays};
ghost use Rattle.aig_trace.specs.Taken.{Ran};
ghost use Rattle.aig_trace.specs.Parts.Progress.{begin_of};
ghost use Rattle.aig_trace.specs.Parts.Saying.{Saying, before_lines, longest_entry, say_line};
ghost use Rattle.aig_trace.specs.Parts.Streaming.{IsTraced, ended_so};
ghost use Rattle.aig_trace.specs.Parts.Tracing.{HasTraced, Task, point_of};

use crate::line_tracer::LineTracer;
use crate::reader::StimulusReader;
use crate::row_taker::{Lent, RowTaker};
use aig_checked::Checked;
use aig_fault::{Kind, Stopped, refused_at};
use aig_io::{Output, ROOM, Sink, Source};
use aig_lines::LineFeeder;
use aig_step::Columns;
use std::alloc::Global;

/// How lines end that were taken: the text for them was not sent, or the line of this number is
/// bad, or neither.
fn outcome_of_lines(failed: bool, good: bool, number: u64) -> Result<(), Stopped>
    ensures { result ≡ ended_so failed good number }
{
    if failed {
        return Err(Stopped::WriteFailed);
    }
    if !good {
        return Err(refused_at(Kind::BadStimulus, number));
    }
    Ok(())
}

/// Takes the bytes that came next, and sends the text for the lines that ended among them.
fn trace_chunk<T: RowTaker>(
    feeder: &mut LineFeeder,
    lines: &mut LineTracer<T>,
    chunk: &[u8],
) -> Result<(), Stopped>
    requires { feeder.old.number + length chunk.now < 2 ^ 64 }
    ensures folded { (at : Feeding (Saying (Task T)))
        → HasFoldedBytes (HasTraced T.took) feeder.old lines.old at
        → HasFoldedBytes (HasTraced T.took) feeder.new lines.new (fold_bytes say_line at chunk.now) }
    ensures number { feeder.new.number ≤ feeder.old.number + length chunk.now }
    ensures settled { lines.new.waiting ≡ [] }
    ensures sent { T.is_settled lines.new.output }
    ensures ended { result
        ≡ ended_so (T.failed lines.new.output) (not feeder.new.refused) feeder.new.number }
{
    let good = feeder.feed(lines, chunk);
    lines.settle();
    let sent = lines.flush();
    outcome_of_lines(sent.is_err(), good, feeder.number())
}

/// Takes the end of the bytes, and sends the text for it.
fn trace_end<T: RowTaker>(feeder: &mut LineFeeder, lines: &mut LineTracer<T>) -> Result<(), Stopped>
    requires { feeder.old.number < 2 ^ 64 - 1 }
    ensures traced { (task : Task T) (bytes : List ℕ)
        → HasFoldedBytes (HasTraced T.took) feeder.old lines.old
        (fold_bytes say_line (before_lines task (length task.circuit.inputs)) bytes)
        → IsTraced T.took task.circuit task.columns bytes true task.from lines.new.output feeder.new }
    ensures sent { T.is_settled lines.new.output }
    ensures ended { result
        ≡ ended_so (T.failed lines.new.output) (not feeder.new.refused) feeder.new.number }
{
    let good = feeder.end(lines);
    lines.settle();
    if good {
        lines.end_run();
    }
    let sent = lines.flush();
    outcome_of_lines(sent.is_err(), good, feeder.number())
}

/// Takes all bytes of the source, and sends the text for them.
fn trace_all<R: Source, T: RowTaker>(
    feeder: &mut LineFeeder,
    lines: &mut LineTracer<T>,
    block: &mut [u8],
    source: &mut R,
) -> Result<(), Stopped>
    requires initial { IsInitial feeder.old }
    requires limit { feeder.old.limit ≡ longest_entry (length lines.old.tracing.circuit.inputs) }
    requires begun { point_of lines.old.tracing ≡ begin_of lines.old.tracing.circuit }
    requires settled { lines.old.waiting ≡ [] }
    requires room { 0 < length block.old }
    requires fine { T.failed lines.old.output ≡ false }
    requires sent { T.is_settled lines.old.output }
    ensures ran { Ran T.took (TraceSays lines.old.tracing.circuit lines.old.tracing.columns result)
        (R.history source.old) (R.history source.new) lines.old.output lines.new.output
        (T.failed lines.new.output) }
    ensures sent { T.is_settled lines.new.output }
{
    loop {
        let Ok(count) = source.fetch(block) else {
            return Err(Stopped::ReadFailed);
        };
        if count == 0 {
            return trace_end(feeder, lines);
        }
        let (chunk, _) = block.split_at(count);
        trace_chunk(feeder, lines, chunk)?;
    }
}

/// How many bytes are fetched at once: a block; or more where lines are taken side by side, as many
/// as have lanes.
fn block_room(checked: &Checked) -> usize
    ensures { 0 < result }
{
    let circuit = checked.circuit();
    if circuit.latches.len() > 0 {
        return ROOM;
    }
    (256 * (circuit.inputs.len() + 1)).clamp(ROOM, 1 << 20)
}

/// Simulates a circuit over a stimulus text, and hands on the lines of the trace. Those for a line
/// are sent before more bytes are fetched, so that a step can be seen when its line was typed. All
/// memory is taken before the first fetch. Steps of a circuit without latches that came at once are
/// taken side by side.
// Not built into its callers, whose stack would then hold the rooms for lines several times over.
#[inline(never)]
pub fn simulate_into<R: Source, T: RowTaker>(
    alloc: Global,
    checked: &Checked,
    columns: Columns,
    source: &mut R,
    output: &mut T,
) -> Result<(), Stopped>
    requires fine { T.failed output.old ≡ false }
    requires sent { T.is_settled output.old }
    ensures ran { Ran T.took (TraceSays checked.now columns result)
        (R.history source.old) (R.history source.new) output.old output.new
        (T.failed output.new) }
    ensures sent { T.is_settled output.new }
{
    let Ok(mut block) = vec![in alloc; 0; block_room(checked)] else {
        return Err(Stopped::OutOfMemory);
    };
    let Ok(reader) = StimulusReader::new(alloc, checked, columns) else {
        drop(block); // for the proof
        return Err(Stopped::OutOfMemory);
    };
    let (mut feeder, mut lines) = reader.into_line_tracer(Lent::new(output));
    let traced = trace_all(&mut feeder, &mut lines, &mut block, source);
    drop(block); // for the proof
    drop(feeder); // for the proof
    let _output = lines.into_output().into_taker();
    traced
}

/// Simulates a circuit over a stimulus text, and writes the trace text, as `simulate_into` says.
#[inline(never)]
pub fn simulate<R: Source, W: Sink>(
    alloc: Global,
    checked: &Checked,
    columns: Columns,
    source: &mut R,
    sink: &mut W,
) -> Result<(), Stopped>
    ensures transferred { Transferred (TraceSays checked.now columns result)
        (R.history source.old) (R.history source.new) (W.history sink.old) (W.history sink.new) }
{
    let mut output = Output::new(sink);
    let traced = simulate_into(alloc, checked, columns, source, &mut output);
    let _sink = output.into_sink();
    traced
}
