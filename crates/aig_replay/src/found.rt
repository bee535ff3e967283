//! A witness out of a solver's answer.
ghost use Rattle.std.specs.Prelude.{◌≡◌, ◌+◌, ◌<◌, ◌≤◌, ◌^◌, IfOk, OnErr, OnOk, drop, length};
ghost use Rattle.std.specs.Prelude.{map, replicate};
ghost use Rattle.aig_circuit.specs.declared.circuit.Circuit.{Circuit as CircuitRecord};
ghost use Rattle.aig_circuit.specs.declared.circuit.Latch.{Latch as LatchRecord};
ghost use Rattle.aig_circuit.specs.Wellformed.{IsWellFormed};
ghost use Rattle.aig_io.specs.Devices.{TookBeginning, took};
ghost use Rattle.aig_io.specs.Output.{Appended};
ghost use Rattle.aig_io.specs.Runs.{Read};
ghost use Rattle.aig_meaning.specs.Meaning.{MeansTheSame};
ghost use Rattle.aig_step.specs.TraceText.{values_text};
ghost use Rattle.aig_unroll.specs.Unrolled.{IsTooLarge, all_inputs, uninitialised};
ghost use Rattle.aig_replay.specs.Finding.{SaysSteps};
ghost use Rattle.aig_replay.specs.Held.{HoldsClaim, claim_held};
ghost use Rattle.aig_replay.specs.Parts.{HasPlaces, RunSays, number_or};
ghost use Rattle.aig_replay.specs.Reached.{WitnessSays};
ghost use Rattle.aig_replay.specs.WitnessLines.{witness_text};

use crate::answer::read_answer;
use crate::search::Hit;
use crate::start::{FoundRun, find_run};
use crate::writer::{HeldSteps, put_witness};
use aig_core::{Checked, Circuit, DeviceFault, Latch, OutOfMemory, Output, Reset, Sink, Source};
use aig_fault::{Kind, Stopped, refused_whole};
use aig_step::Stepper;
use std::alloc::Global;
use std::marker::Model;

/// A witness that a bad state is reached, in the memory into which the answer was read.
#[derive(Drop)]
pub struct FoundWitness {
    property: usize,
    first: Vec<u8>,
    bits: Vec<u8>,
    /// How many of the bits the first state used: those of the steps stand after them.
    used: usize,
    inputs: usize,
    /// How many steps there are.
    count: usize,
}

impl Model for FoundWitness {
    ghost use Rattle.std.specs.Prelude.{drop as left};
    ghost use Rattle.aig_witness.specs.Witness.{Claim};
    ghost use Rattle.aig_replay.specs.Held.{HoldsClaim as Holds, claim_held as held};

    ghost Value = { Claim };

    ghost view = { λ w. held w.property w.first.items w.inputs w.count
        (left w.used w.bits.items) };

    ghost invariant = { λ w. Holds w.first.items w.bits.items w.used w.inputs w.count };
}

fn count_uninitialised(latches: &[Latch]) -> usize
    ensures count { result ≡ uninitialised (map (λ (l : LatchRecord). l.reset) latches.now) }
    ensures bound { result ≤ length latches.now }
{
    let mut count = 0;
    for latch in latches {
        match latch.reset {
            Reset::Uninit => count += 1,
            _ => {}
        }
    }
    count
}

/// What runs a circuit, and places for the values of an answer and for the first state.
#[derive(Drop)]
struct Room {
    stepper: Stepper,
    bits: Vec<u8>,
    first: Vec<u8>,
}

/// Places for the values of an answer and for the first state.
fn new_places(
    alloc: Global,
    circuit: &Circuit,
    frames: usize,
) -> Result<(Vec<u8>, Vec<u8>), OutOfMemory>
    requires { ¬ IsTooLarge circuit.now frames }
    ensures bits { IfOk result (λ made. made.0.items
        ≡ replicate (all_inputs circuit.now frames) 48) }
    ensures first { IfOk result (λ made. length made.1.items ≡ length circuit.now.latches) }
{
    let latches = circuit.latches.as_slice();
    let count = count_uninitialised(latches) + frames * circuit.inputs.len();
    let bits = vec![in alloc; b'0'; count]?;
    let first = vec![in alloc; b'0'; latches.len()]?;
    Ok((bits, first))
}

fn new_room(alloc: Global, found: &Checked, frames: usize) -> Result<Room, OutOfMemory>
    requires { ¬ IsTooLarge found.now frames }
    ensures { IfOk result (λ room. HasPlaces found.now frames room.stepper.circuit room.bits.items
        room.first.items) }
{
    let stepper = Stepper::new(alloc, found)?;
    match new_places(alloc, found.circuit(), frames) {
        Ok((bits, first)) => Ok(Room {
            stepper,
            bits,
            first,
        }),
        Err(refused) => {
            drop(stepper); // for the proof
            Err(refused)
        }
    }
}

/// The number of the bad state: in the circuit in which one was taken alone it is 0.
fn number_or(selected: Option<u32>, hit: Hit) -> usize
    ensures { result ≡ number_or selected hit.property }
{
    match selected {
        Some(number) => number as usize,
        None => hit.property,
    }
}

/// The witness of a run that reaches this bad state, with so many inputs in each step.
fn into_witness(room: Room, run: FoundRun, inputs: usize, property: usize) -> FoundWitness
    requires early { run.hit.step < 2 ^ 32 }
    requires holds { HoldsClaim room.first.items room.bits.items run.used inputs
        (run.hit.step + 1) }
    ensures { result ≡ claim_held property room.first.items inputs (run.hit.step + 1)
        (drop run.used room.bits.items) }
{
    let Room {
        stepper,
        bits,
        first,
    } = room;
    drop(stepper); // for the proof
    FoundWitness {
        property,
        first,
        bits,
        used: run.used,
        inputs,
        count: run.hit.step + 1,
    }
}

/// Reads an answer, and runs the circuit by its values.
fn find_by_answer<R: Source>(
    stepper: &mut Stepper,
    frames: usize,
    answer: &mut R,
    bits: &mut [u8],
    first: &mut [u8],
) -> Result<FoundRun, Stopped>
    requires latches { length first.old ≡ length stepper.old.circuit.latches }
    ensures { (d : CircuitRecord) → IsWellFormed d → MeansTheSame d stepper.old.circuit
        → bits.old ≡ replicate (all_inputs d frames) 48
        → Read (RunSays d frames result bits.new first.new)
        (R.history answer.old) (R.history answer.new) }
{
    read_answer(answer, bits)?;
    match find_run(stepper, bits, frames, first) {
        Some(run) => Ok(run),
        None => Err(refused_whole(Kind::NotReached)),
    }
}

/// Reads a solver's answer to the clauses of this circuit, unrolled over so many frames, and runs
/// the circuit by its values. If one bad state was taken alone, the witness is of that of this
/// number. All memory is taken before the first fetch.
pub fn find_witness<R: Source>(
    alloc: Global,
    found: &Checked,
    frames: u32,
    selected: Option<u32>,
    answer: &mut R,
) -> Result<FoundWitness, Stopped>
    requires fits { ¬ IsTooLarge found.now frames }
    ensures { Read (WitnessSays found.now selected frames result)
        (R.history answer.old) (R.history answer.new) }
{
    let mut room = new_room(alloc, found, frames as usize)?;
    let inputs = found.circuit().inputs.len();
    match find_by_answer(
        &mut room.stepper,
        frames as usize,
        answer,
        &mut room.bits,
        &mut room.first,
    ) {
        Ok(run) => Ok(into_witness(room, run, inputs, number_or(selected, run.hit))),
        Err(fault) => {
            drop(room); // for the proof
            Err(fault)
        }
    }
}

impl FoundWitness {
    /// The characters of its first state.
    pub fn first(&self) -> &[u8]
        ensures { result.now ≡ values_text self.now.first }
    {
        self.first.as_slice()
    }

    /// The characters of its steps.
    pub fn steps(&self) -> HeldSteps<'_>
        ensures { SaysSteps result.inputs result.count result.characters.now self.now.steps }
    {
        let end = self.used + self.count * self.inputs;
        HeldSteps {
            inputs: self.inputs,
            count: self.count,
            characters: &self.bits[self.used..end],
        }
    }

    fn put<W: Sink>(&self, output: &mut Output<W>)
        ensures { Appended output.old output.new (witness_text self.now) }
    {
        let end = self.used + self.count * self.inputs;
        put_witness(
            output,
            self.property,
            &self.first,
            self.inputs,
            self.count,
            &self.bits[self.used..end],
        );
    }

    /// Writes the witness file. It fails only where the sink fails, which then took a beginning of
    /// the text, and is not called again.
    pub fn write<W: Sink>(self, sink: &mut W) -> Result<(), DeviceFault>
        ensures ok { OnOk result (W.history sink.new
            ≡ took (witness_text self) (W.history sink.old)) }
        ensures err { OnErr result (TookBeginning (witness_text self) (W.history sink.old)
            (W.history sink.new)) }
    {
        let mut output = Output::new(sink);
        self.put(&mut output);
        let (sent, _sink) = output.finish();
        sent?;
        Ok(())
    }
}
