//! Traces of runs that were stepped side by side.
ghost use Rattle.std.specs.Prelude.{◌≡◌, ◌*◌, ◌<◌, ◌≤◌, ◌^◌, ℕ, IfOk, length, slice_index_or};
ghost use Rattle.std.specs.List.{All, AllZip};
ghost use Rattle.aig_circuit.specs.declared.circuit.Circuit.{Circuit as CircuitRecord};
ghost use Rattle.aig_lanes.specs.declared.run.Run.{Run as RunRecord};
ghost use Rattle.aig_lanes.specs.Parts.LaneTexts.{HoldsRun, HoldsRuns, KeepsRun, shown_size};
ghost use Rattle.aig_lanes.specs.Runs.{IsTraceOf};
ghost use Rattle.aig_step.specs.declared.trace.Columns.TheVariants.{Properties};

use aig_circuit::{Listing, OutOfMemory};
use aig_lanes::{LaneColumns, Run, Sheet, Trace};
use std::alloc::Global;

/// The trace of a run, by what its lane shows. There is a line to write in.
fn take_trace(
    alloc: Global,
    run: &Run,
    shown: &LaneColumns,
    sheet: &Sheet,
    line: &mut [u8],
    lane: usize,
) -> Result<Trace, OutOfMemory>
    requires lane { lane < 256 }
    requires fits { length run.now.steps * shown_size shown.now < 2 ^ 64 }
    requires room { HoldsRun lane run.now shown.now sheet.now }
    requires line { shown_size shown.now ≤ length line.old }
    requires asks { shown.now.columns ≡ Properties }
    ensures { IfOk result (λ trace. (c : CircuitRecord)
        → KeepsRun c run.now lane shown.now sheet.now
        → IsTraceOf c run.now trace) }
{
    let steps = run.steps.as_slice();
    let mut rows = Listing::new(alloc);
    for step in 0..steps.len() {
        let row = shown.row(alloc, sheet, line, &steps[step], step, lane)?;
        rows.push(row)?;
    }
    Ok(Trace { rows })
}

pub(crate) fn take_traces(
    alloc: Global,
    runs: &[Run],
    shown: &LaneColumns,
    sheet: &Sheet,
    line: &mut [u8],
) -> Result<Vec<Trace>, OutOfMemory>
    requires lanes { length runs.now ≤ 256 }
    requires fits { All
        (λ (run : RunRecord). length run.steps * shown_size shown.now < 2 ^ 64) runs.now }
    requires room { HoldsRuns shown.now sheet.now runs.now }
    requires line { shown_size shown.now ≤ length line.old }
    requires asks { shown.now.columns ≡ Properties }
    ensures { IfOk result (λ traces. (c : CircuitRecord)
        → ((j : ℕ) (d : RunRecord) → j < length runs.now
        → KeepsRun c (slice_index_or runs.now j d) j shown.now sheet.now)
        → AllZip (IsTraceOf c) runs.now traces.items) }
{
    let mut traces = Vec::with_capacity(alloc, runs.len())?;
    for lane in 0..runs.len() {
        let trace = take_trace(alloc, &runs[lane], shown, sheet, line, lane)?;
        traces.push(trace)?;
    }
    Ok(traces)
}
