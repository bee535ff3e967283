//! Many runs of one circuit.
ghost use Rattle.std.specs.Prelude.{◌≡◌, ◌++◌, ◌≤◌, IfOk, length};
ghost use Rattle.std.specs.List.{All, AllZip};
ghost use Rattle.aig_lanes.specs.Runs.{IsRunOf, IsTraceOf};
ghost use Rattle.aig_step.specs.Parts.Lines.{line_size};

use crate::alone::trace_alone;
use crate::stimuli::{group_of, texts_of};
use crate::traces::take_traces;
use aig_checked::Checked;
use aig_circuit::{Listing, OutOfMemory};
use aig_lanes::{Bench, Run, Trace};
use aig_step::{Columns, Machine, Simulator};
use aig_trace::line_room;
use std::alloc::Global;

/// How many runs are stepped side by side.
const LANES: usize = 256;

/// So many runs are as fast one after another as side by side.
const FEW: usize = 8;

fn append(traces: &mut Vec<Trace>, mut more: Vec<Trace>) -> Result<(), OutOfMemory>
    ensures { IfOk result (λ _. traces.new.items ≡ traces.old.items ++ more.items) }
{
    traces.append(&mut more)?;
    Ok(())
}

fn trace_group(
    alloc: Global,
    machine: &Machine,
    line_room: usize,
    runs: &[Run],
) -> Result<Vec<Trace>, OutOfMemory>
    requires lanes { length runs.now ≤ 256 }
    requires fits { All (IsRunOf machine.now) runs.now }
    requires line { line_room ≡ line_size machine.now }
    ensures { IfOk result (λ traces. AllZip (IsTraceOf machine.now) runs.now traces.items) }
{
    let texts = texts_of(alloc, runs)?;
    let groups = [group_of(alloc, machine.parts().inputs.len(), runs, &texts)?];
    let mut lanes = Bench::new(alloc, machine, Columns::Properties, line_room, &groups)?;
    let bench = &mut lanes;
    bench.step(machine, groups[0].as_slice());
    take_traces(alloc, runs, &bench.shown, &bench.sheet, &mut bench.line)
}

fn trace_groups(
    alloc: Global,
    machine: &Machine,
    line_room: usize,
    runs: &[Run],
) -> Result<Vec<Trace>, OutOfMemory>
    requires fits { All (IsRunOf machine.now) runs.now }
    requires line { line_room ≡ line_size machine.now }
    ensures { IfOk result (λ traces. AllZip (IsTraceOf machine.now) runs.now traces.items) }
{
    let mut traces = Vec::new(alloc);
    let mut done = 0;
    while done < runs.len() {
        let end = runs.len().min(done + LANES);
        let more = trace_group(alloc, machine, line_room, &runs[done..end])?;
        append(&mut traces, more)?;
        done = end;
    }
    Ok(traces)
}

/// How many of so many runs are run one after another: a few after the last full group.
fn count_alone(count: usize) -> usize
    ensures { result ≤ count }
{
    let left = count % LANES;
    if left < FEW { left } else { 0 }
}

/// Groups of runs side by side, and a few that are left alone.
fn trace_runs(
    alloc: Global,
    simulator: &mut Simulator,
    line_room: usize,
    runs: &[Run],
) -> Result<Listing<Trace>, OutOfMemory>
    requires fits { All (IsRunOf simulator.old.circuit) runs.now }
    requires line { line_room ≡ line_size simulator.old.circuit }
    ensures { IfOk result (λ traces. AllZip (IsTraceOf simulator.old.circuit) runs.now traces) }
{
    let (grouped, rest) = runs.split_at(runs.len() - count_alone(runs.len()));
    let mut traces = trace_groups(alloc, simulator.machine(), line_room, grouped)?;
    append(&mut traces, trace_alone(alloc, simulator, rest)?)?;
    Ok(Listing::from_vec(traces))
}

/// The traces of runs, one for each and in their order: what a `Simulator` shows of a run from the
/// reset state, step by step. Each run must fit the circuit, as `Run::fits` tells; they may be of
/// any lengths. 256 of them are stepped side by side. Where an allocation fails there is no trace.
pub fn simulate_batch(
    alloc: Global,
    checked: &Checked,
    runs: &[Run],
) -> Result<Listing<Trace>, OutOfMemory>
    requires { All (IsRunOf checked.now) runs.now }
    ensures { IfOk result (λ traces. AllZip (IsTraceOf checked.now) runs.now traces) }
{
    let mut simulator = Simulator::new(alloc, checked)?;
    trace_runs(alloc, &mut simulator, line_room(checked), runs)
}
