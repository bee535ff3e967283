//! The inputs of runs as characters.
ghost use Rattle.std.specs.Prelude.{◌≡◌, ◌++◌, IfOk, List, length, map};
ghost use Rattle.std.specs.List.{All, flat_map};
ghost use Rattle.aig_circuit.specs.declared.value.Val.{Val as Value};
ghost use Rattle.aig_lanes.specs.declared.run.Run.{Run as RunRecord};
ghost use Rattle.aig_step.specs.TraceText.{character_of, values_text};

use aig_circuit::{Listing, OutOfMemory, Val};
use aig_lanes::{Run, RunGroup, Vectors};
use std::alloc::Global;

fn character(value: Val) -> u8
    ensures { result ≡ character_of value }
{
    match value {
        Val::Zero => b'0',
        Val::One => b'1',
        Val::X => b'x',
    }
}

fn add_values(text: &mut Listing<u8>, values: &[Val]) -> Result<(), OutOfMemory>
    ensures { IfOk result (λ _. text.new ≡ text.old ++ values_text values.now) }
{
    for value in values {
        text.push(character(*value))?;
    }
    Ok(())
}

/// The inputs of all steps of a run.
fn text_of_run(alloc: Global, run: &Run) -> Result<Listing<u8>, OutOfMemory>
    ensures { IfOk result (λ text. text ≡ flat_map values_text run.now.steps) }
{
    let mut text = Listing::new(alloc);
    for given in run.steps.as_slice() {
        add_values(&mut text, given.as_slice())?;
    }
    Ok(text)
}

pub(crate) fn texts_of(alloc: Global, runs: &[Run]) -> Result<Vec<Listing<u8>>, OutOfMemory>
    ensures { IfOk result (λ texts.
        texts.items ≡ map (λ (run : RunRecord). flat_map values_text run.steps) runs.now) }
{
    let mut texts = Vec::with_capacity(alloc, runs.len())?;
    for run in runs {
        texts.push(text_of_run(alloc, run)?)?;
    }
    Ok(texts)
}

pub(crate) fn group_of<'a>(
    alloc: Global,
    inputs: usize,
    runs: &[Run],
    texts: &'a [Listing<u8>],
) -> Result<RunGroup<'a>, OutOfMemory>
    requires texts { texts.now
        ≡ map (λ (run : RunRecord). flat_map values_text run.steps) runs.now }
    requires fits { All (λ (run : RunRecord).
        All (λ (vector : List Value). length vector ≡ inputs) run.steps) runs.now }
    ensures { IfOk result (λ group. group ≡ runs.now) }
{
    let mut vectors = Vec::with_capacity(alloc, runs.len())?;
    for i in 0..runs.len() {
        let steps = runs[i].steps.len();
        vectors.push(Vectors::new(texts[i].as_slice(), inputs, inputs, steps))?;
    }
    Ok(RunGroup::new(vectors))
}
