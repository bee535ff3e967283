//! Runs one after another.
ghost use Rattle.std.specs.Prelude.{◌≡◌, length, IfOk};
ghost use Rattle.std.specs.List.{All, AllZip};
ghost use Rattle.aig_meaning.specs.Meaning.{Row as RowRecord};
ghost use Rattle.aig_lanes.specs.Parts.Groups.{Added};
ghost use Rattle.aig_lanes.specs.Runs.{IsRunOf, IsTraceOf, row_of};
ghost use Rattle.aig_step.specs.Showing.{IsRowShown};

use aig_circuit::{Listing, OutOfMemory, Val};
use aig_lanes::{FullRow, Run, Trace};
use aig_step::{Row, Simulator};
use std::alloc::{AllocError, Global};

fn list_of(alloc: Global, values: &[Val]) -> Result<Listing<Val>, AllocError>
    ensures { IfOk result (λ list. list ≡ values.now) }
{
    Ok(Listing::from_vec(Vec::from_slice(alloc, values)?))
}

/// What a simulator shows, with the inputs of the step, in lists of their own.
fn full_row(alloc: Global, shown: Row<'_>, given: &Listing<Val>) -> Result<FullRow, AllocError>
    ensures { IfOk result (λ full. (row : RowRecord) → IsRowShown shown.entry row
        → row.inputs ≡ given.now
        → row_of full ≡ row) }
{
    let state = list_of(alloc, shown.state)?;
    let inputs = given.copy(alloc)?;
    let outputs = list_of(alloc, shown.outputs)?;
    let next = list_of(alloc, shown.next)?;
    let bad = list_of(alloc, shown.bad)?;
    let constraints = list_of(alloc, shown.constraints)?;
    Ok(FullRow {
        state,
        inputs,
        outputs,
        next,
        bad,
        constraints,
    })
}

fn add_step(
    alloc: Global,
    simulator: &mut Simulator,
    given: &Listing<Val>,
    rows: &mut Listing<FullRow>,
) -> Result<(), OutOfMemory>
    requires { length given.now ≡ length simulator.old.circuit.inputs }
    ensures { IfOk result (λ _. Added simulator.old simulator.new given.now rows.old rows.new) }
{
    simulator.step(given.as_slice());
    match simulator.row() {
        Some(shown) => {
            let row = full_row(alloc, shown, given)?;
            rows.push(row)?;
            Ok(())
        }
        None => unreachable!(),
    }
}

fn trace_run(alloc: Global, simulator: &mut Simulator, run: &Run) -> Result<Trace, OutOfMemory>
    requires { IsRunOf simulator.old.circuit run.now }
    ensures circuit { IfOk result (λ _. simulator.new.circuit ≡ simulator.old.circuit) }
    ensures traced { IfOk result (λ trace. IsTraceOf simulator.old.circuit run.now trace) }
{
    simulator.reset();
    let mut rows = Listing::new(alloc);
    for given in run.steps.as_slice() {
        add_step(alloc, simulator, given, &mut rows)?;
    }
    Ok(Trace { rows })
}

pub(crate) fn trace_alone(
    alloc: Global,
    simulator: &mut Simulator,
    runs: &[Run],
) -> Result<Vec<Trace>, OutOfMemory>
    requires { All (IsRunOf simulator.old.circuit) runs.now }
    ensures { IfOk result (λ traces. AllZip
        (IsTraceOf simulator.old.circuit) runs.now traces.items) }
{
    let mut traces = Vec::new(alloc);
    for run in runs {
        let trace = trace_run(alloc, simulator, run)?;
        traces.push(trace)?;
    }
    Ok(traces)
}
