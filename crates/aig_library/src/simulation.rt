//! Simulation from bytes to bytes.
ghost use Rattle.std.specs.Prelude.{◌≡◌, ◌↔◌, IfErr, IfOk, IsTrue, None, true};
ghost use Rattle.aig_commands.specs.File.{IsFileOf};
ghost use Rattle.aig_commands.specs.Reading.{IsUnreadable};
ghost use Rattle.aig_commands.specs.Simulation.{IsWrittenText, columns_of};
ghost use Rattle.aig_step.specs.Outcome.{first_bad_line};
ghost use Rattle.aig_step.specs.TraceText.{IsTraceText};
ghost use Rattle.aig_dump.specs.InMemory.{IsBadStimulus, StopsInMemory};
ghost use Rattle.aig_library.specs.Answers.{IsSimulationRefused, SimulateAnswers};
ghost use Rattle.aig_library.specs.Asked.{CanSimulate, has, simulation};

use crate::asked::{PROPERTIES, VCD, has, only_has};
use crate::outcome::{BAD_OPTIONS, Outcome, answer, ending};
use aig_batch::simulate_batched;
use aig_commands::{Stopped, read_source};
use aig_core::{Checked, Keep, LARGEST, SliceSource, VecSink};
use aig_dump::dump;
use aig_step::Columns;
use std::alloc::Global;

/// The circuit of a model.
pub(crate) fn circuit_of(alloc: Global, max_var: u32, model: &[u8]) -> Result<Checked, Stopped>
    ensures ok { IfOk result (λ found. IsFileOf model.now max_var found) }
    ensures err { IfErr result (StopsInMemory (λ fault. IsUnreadable max_var fault model.now)) }
{
    let mut source = SliceSource::new(model)?;
    let read = read_source(alloc, &mut source, max_var, Keep::Order);
    source.gives_its_bytes();
    read
}

/// The trace text of a stimulus.
fn trace(
    alloc: Global,
    columns: Columns,
    found: &Checked,
    stimulus: &[u8],
) -> Result<Vec<u8>, Stopped>
    ensures none_bad { IfOk result (λ _. first_bad_line found.now stimulus.now true ≡ None) }
    ensures text { IfOk result (λ text.
        IsTraceText found.now columns stimulus.now true text.items) }
    ensures err { IfErr result (StopsInMemory (IsBadStimulus found.now stimulus.now)) }
{
    let mut source = SliceSource::new(stimulus)?;
    let mut sink = VecSink::new(alloc);
    let done = simulate_batched(alloc, found, columns, &mut source, &mut sink);
    source.gives_its_bytes();
    done?;
    Ok(sink.into_vec())
}

/// The columns of the trace that the options ask for.
fn columns_of(options: u32) -> Columns
    ensures { result ≡ columns_of (simulation options 0) }
{
    if has(options, PROPERTIES) {
        Columns::Properties
    } else {
        Columns::Plain
    }
}

/// What the options ask for of a stimulus, for the circuit of a model: its trace text, or the dump
/// of that.
fn trace_or_dump(
    alloc: Global,
    options: u32,
    max_var: u32,
    model: &[u8],
    stimulus: &[u8],
) -> Result<Vec<u8>, Stopped>
    ensures ok { IfOk result (λ text.
        IsWrittenText (simulation options max_var) model.now stimulus.now text.items) }
    ensures err { IfErr result (StopsInMemory
        (IsSimulationRefused (simulation options max_var) model.now stimulus.now)) }
{
    let found = circuit_of(alloc, max_var, model)?;
    let text = if has(options, VCD) {
        dump(alloc, &found, stimulus)
    } else {
        trace(alloc, columns_of(options), &found, stimulus)
    };
    drop(found); // for the proof
    Ok(text?)
}

/// Whether the numbers can be met that ask for a simulation.
fn can_simulate(options: u32, max_var: u32) -> bool
    ensures { IsTrue result ↔ CanSimulate options max_var }
{
    only_has(options, PROPERTIES + VCD)
        && max_var <= LARGEST
        && !(has(options, VCD) && has(options, PROPERTIES))
}

/// Simulates the circuit of an AIGER file over a stimulus. The text is the trace, or with `VCD` the
/// dump of that; the options are `PROPERTIES` or `VCD`, not both. The largest index and the counts
/// of the model are at most `max_var`.
pub fn simulate(
    alloc: Global,
    options: u32,
    max_var: u32,
    model: &[u8],
    stimulus: &[u8],
    output: &mut [u8],
) -> Outcome
    ensures { SimulateAnswers options max_var model.now stimulus.now
        output.old output.new result }
{
    if !can_simulate(options, max_var) {
        return ending(BAD_OPTIONS, 0, 0);
    }
    answer(
        trace_or_dump(alloc, options, max_var, model, stimulus),
        output,
    )
}
