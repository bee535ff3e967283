//! A circuit frame by frame, as it is unrolled.
ghost use Rattle.std.specs.Prelude.{◌≡◌, ◌+◌, ◌-◌, ◌<◌, ◌≤◌, ◌∷◌, ℕ, [], drop, length, map, take};
ghost use Rattle.std.specs.Prelude.{IfOk, IsTrue};
ghost use Rattle.std.specs.List.{All};
ghost use Rattle.aig_circuit.specs.declared.circuit.Latch.{Latch as LatchRecord};
ghost use Rattle.aig_circuit.specs.declared.circuit.TheConstants.{LARGEST};
ghost use Rattle.aig_checked.specs.BinaryOrder.{IsInBinaryOrder};
ghost use Rattle.aig_circuit.specs.Literal.{literal_of};
ghost use Rattle.aig_circuit.specs.Wellformed.{IsWellFormed};
ghost use Rattle.aig_binary.specs.BinaryText.{HasDeltas};
ghost use Rattle.aig_unroll.specs.Unrolled.{IsTooLarge, all_inputs, bad_at};
ghost use Rattle.aig_unroll.specs.Unrolled.{chain_at, first_latches, frame_size};
ghost use Rattle.aig_unroll.specs.Unrolled.{gates_at, outputs_at, resets_of, uninitialised};
ghost use Rattle.aig_unroll.specs.Parts.Frames.{behind_by, table};
ghost use Rattle.aig_unroll.specs.Parts.Substitution.{GateHasRoom, FitsLiteral, substituted};

use crate::substitution::{
    put_chain, put_copies, put_first_latches, put_guards, put_literals, put_nexts, put_numbered,
};
use aig_core::{Circuit, Gate, Latch, Lit, Ordered, OutOfMemory, Reset};
use std::alloc::{AllocError, Global};
use std::marker::Model;

/// A circuit in one of the frames over which it is unrolled.
#[derive(Drop)]
pub(crate) struct Frames {
    /// The circuit, in binary order.
    circuit: Circuit,
    frames: u32,
    frame: u32,
    /// The first variable of the frame's inputs.
    first_input: u32,
    /// The first variable of the frame's gates.
    first_gate: u32,
    /// What stands for the constant, the inputs and the latches.
    substitution: Vec<Lit>,
    /// Room for what stands for the latches in the next frame.
    next: Vec<Lit>,
}

impl Model for Frames {
    ghost use Rattle.aig_unroll.specs.Parts.Frames.{Frame, IsFrame};

    ghost Value = { Frame };

    ghost view = { λ f. record { circuit = f.circuit; frames = f.frames; frame = f.frame } };

    ghost invariant = { λ f. IsFrame f.circuit f.frames f.frame f.first_input f.first_gate
        f.substitution.items f.next.items };
}

pub(crate) fn count_uninitialised(latches: &[Latch]) -> usize
    ensures count { result ≡ uninitialised (map (λ (l : LatchRecord). l.reset) latches.now) }
    ensures bound { result ≤ length latches.now }
{
    let mut count = 0;
    for latch in latches {
        match latch.reset {
            Reset::Uninit => count += 1,
            _ => {}
        }
    }
    count
}

pub(crate) fn gates_of_frame(circuit: &Circuit) -> usize
    requires { IsWellFormed circuit.now }
    ensures { result ≡ frame_size circuit.now }
{
    circuit.gates.len() + circuit.constraints.len() + circuit.bad.len()
}

/// Makes the table of frame 0 of one with as many places.
fn put_substitution(first_input: u32, inputs: usize, latches: &[Latch], substitution: &mut [Lit])
    requires room { length substitution.old ≡ 1 + inputs + length latches.now }
    requires inputs { first_input + inputs ≤ LARGEST + 1 }
    requires latches { length latches.now ≤ LARGEST }
    requires constant { substitution.old ≡ 0 ∷ drop 1 substitution.old }
    ensures { substitution.new
        ≡ table first_input inputs (first_latches 1
        (map (λ (l : LatchRecord). l.reset) latches.now)) }
{
    put_numbered(first_input, &mut substitution[1..1 + inputs]);
    put_first_latches(latches, &mut substitution[1 + inputs..]);
}

fn first_substitution(
    alloc: Global,
    first_input: u32,
    inputs: usize,
    latches: &[Latch],
) -> Result<Vec<Lit>, AllocError>
    requires inputs { first_input + inputs ≤ LARGEST + 1 }
    requires latches { length latches.now ≤ LARGEST }
    ensures { IfOk result (λ substitution. substitution.items
        ≡ table first_input inputs (first_latches 1
        (map (λ (l : LatchRecord). l.reset) latches.now))) }
{
    let mut substitution = vec![in alloc; Lit(0); 1 + inputs + latches.len()]?;
    put_substitution(first_input, inputs, latches, &mut substitution);
    Ok(substitution)
}

fn make_tables(
    alloc: Global,
    first_input: u32,
    circuit: &Circuit,
) -> Result<(Vec<Lit>, Vec<Lit>), OutOfMemory>
    requires inputs { first_input + length circuit.now.inputs ≤ LARGEST + 1 }
    requires latches { length circuit.now.latches ≤ LARGEST }
    ensures substitution { IfOk result (λ tables. tables.0.items
        ≡ table first_input (length circuit.now.inputs)
        (first_latches 1 (map (λ (l : LatchRecord). l.reset) circuit.now.latches))) }
    ensures next { IfOk result (λ tables. length tables.1.items ≡ length circuit.now.latches) }
{
    let latches = circuit.latches.as_slice();
    let substitution = first_substitution(alloc, first_input, circuit.inputs.len(), latches)?;
    let next = vec![in alloc; Lit(0); latches.len()]?;
    Ok((substitution, next))
}

/// Changes a table: its inputs are the variables from this one on, and this stands for the latches.
fn change_substitution(first_input: u32, next: &[Lit], substitution: &mut [Lit])
    requires room { 1 + length next.now ≤ length substitution.old }
    requires inputs { first_input + length substitution.old ≤ LARGEST + 2 + length next.now }
    requires constant { substitution.old ≡ 0 ∷ drop 1 substitution.old }
    ensures { substitution.new ≡ table first_input
        (length substitution.old - 1 - length next.now) next.now }
{
    let inputs = substitution.len() - 1 - next.len();
    put_numbered(first_input, &mut substitution[1..1 + inputs]);
    substitution[1 + inputs..].copy_from_slice(next);
}

/// Appends the frame's constraint chain and bad-state gates. The chain goes on from `chain`, and
/// the gates of the circuit have the variables from `first` on.
fn put_behind(substitution: &[Lit], first: u32, chain: Lit, circuit: &Circuit, out: &mut [Gate])
    requires room { length out.old ≡ length circuit.now.constraints + length circuit.now.bad }
    requires constraints { All (FitsLiteral (length substitution.now) first)
        circuit.now.constraints }
    requires bad { All (FitsLiteral (length substitution.now) first) circuit.now.bad }
    requires small { first + frame_size circuit.now ≤ LARGEST + 1 }
    ensures { out.new ≡ behind_by (substituted substitution.now first) first chain circuit.now }
{
    let constraints = circuit.constraints.as_slice();
    let bad = circuit.bad.as_slice();
    let count = constraints.len();
    let second = first + circuit.gates.len() as u32;
    let third = second + count as u32;
    let behind = put_chain(
        substitution,
        first,
        second,
        chain,
        constraints,
        &mut out[..count],
    );
    put_guards(substitution, first, third, behind, bad, &mut out[count..]);
}

impl Frames {
    pub(crate) fn new(alloc: Global, image: Ordered, frames: u32) -> Result<Self, OutOfMemory>
        requires some { 1 ≤ frames }
        requires fits { ¬ IsTooLarge image frames }
        ensures { IfOk result (λ f. f ≡ record { circuit = image; frames = frames; frame = 0 }) }
    {
        let circuit = image.into_checked().into_circuit();
        let uninitialised = count_uninitialised(circuit.latches.as_slice()) as u32;
        let inputs = circuit.inputs.len();
        let first_input = 1 + uninitialised;
        let first_gate = first_input + frames * inputs as u32;
        match make_tables(alloc, first_input, &circuit) {
            Ok((substitution, next)) => Ok(Frames {
                circuit,
                frames,
                frame: 0,
                first_input,
                first_gate,
                substitution,
                next,
            }),
            Err(refused) => {
                drop(circuit); // for the proof
                Err(refused)
            }
        }
    }

    pub(crate) fn circuit(&self) -> &Circuit
        ensures value { result.now ≡ self.now.circuit }
        ensures formed { IsWellFormed self.now.circuit }
        ensures fits { ¬ IsTooLarge self.now.circuit self.now.frames }
        ensures within { self.now.frame < self.now.frames }
    {
        &self.circuit
    }

    pub(crate) fn frames(&self) -> u32
        ensures value { result ≡ self.now.frames }
        ensures within { self.now.frame < self.now.frames }
    {
        self.frames
    }

    pub(crate) fn count_inputs(&self) -> u32
        requires { self.now.frame ≡ 0 }
        ensures { result ≡ all_inputs self.now.circuit self.now.frames }
    {
        self.first_gate - 1
    }

    pub(crate) fn count_gates(&self) -> usize
        ensures { result ≡ frame_size self.now.circuit }
    {
        gates_of_frame(&self.circuit)
    }

    /// Whether no frame has a gate.
    pub(crate) fn has_no_gates(&self) -> bool
        ensures { IsTrue result
            → (t : ℕ) → gates_at self.now.circuit self.now.frames t ≡ [] }
    {
        self.count_gates() == 0
    }

    /// The chain of constraints before the frame: the last gate of the chain of the frame before.
    fn chain(&self) -> Lit
        ensures { result ≡ chain_at self.now.circuit self.now.frames self.now.frame }
    {
        if self.frame == 0 || self.circuit.constraints.is_empty() {
            Lit(1)
        } else {
            Lit(2 * (self.first_gate - self.circuit.bad.len() as u32 - 1))
        }
    }

    pub(crate) fn put_outputs(&self, out: &mut [Lit])
        requires { length out.old ≡ length self.now.circuit.outputs }
        ensures { out.new ≡ outputs_at self.now.circuit self.now.frames self.now.frame }
    {
        let substitution = self.substitution.as_slice();
        put_literals(
            substitution,
            self.first_gate,
            self.circuit.outputs.as_slice(),
            out,
        );
    }

    pub(crate) fn put_bad(&self, out: &mut [Lit])
        requires { length out.old ≡ length self.now.circuit.bad }
        ensures { out.new ≡ bad_at self.now.circuit self.now.frames self.now.frame }
    {
        let before = self.circuit.gates.len() + self.circuit.constraints.len();
        put_numbered(self.first_gate + before as u32, out);
    }

    /// Puts copies of gates, from the one at this place on, as many as there is room for.
    pub(crate) fn put_copies(&self, at: usize, out: &mut [Gate])
        requires { at + length out.old ≤ length self.now.circuit.gates }
        ensures gates { out.new
            ≡ take (length out.old) (drop at
            (gates_at self.now.circuit self.now.frames self.now.frame)) }
        ensures deltas { All HasDeltas out.new }
    {
        let substitution = self.substitution.as_slice();
        let first = self.first_gate + at as u32;
        let gates = &self.circuit.gates.as_slice()[at..at + out.len()];
        put_copies(substitution, self.first_gate, first, gates, out);
    }

    /// Puts the gates of constraints and of bad states in the frame, which are after the copies.
    fn put_behind(&self, out: &mut [Gate])
        requires { length out.old
            ≡ length self.now.circuit.constraints + length self.now.circuit.bad }
        ensures { out.new ≡ drop (length self.now.circuit.gates)
            (gates_at self.now.circuit self.now.frames self.now.frame) }
    {
        let substitution = self.substitution.as_slice();
        put_behind(
            substitution,
            self.first_gate,
            self.chain(),
            &self.circuit,
            out,
        );
    }

    pub(crate) fn put_gates_from(&self, at: usize, out: &mut [Gate])
        requires within { at ≤ length self.now.circuit.gates }
        requires room { at + length out.old ≡ frame_size self.now.circuit }
        ensures gates { out.new ≡ drop at
            (gates_at self.now.circuit self.now.frames self.now.frame) }
        ensures deltas { All HasDeltas out.new }
    {
        let copies = self.circuit.gates.len() - at;
        self.put_copies(at, &mut out[..copies]);
        self.put_behind(&mut out[copies..]);
    }

    fn restart(&mut self)
        ensures { self.new ≡ record self.old { frame = 0 } }
    {
        let latches = self.circuit.latches.as_slice();
        let inputs = self.circuit.inputs.len();
        self.frame = 0;
        self.first_input = 1 + count_uninitialised(latches) as u32;
        self.first_gate = self.first_input + self.frames * inputs as u32;
        put_substitution(self.first_input, inputs, latches, &mut self.substitution);
    }

    pub(crate) fn enter_next(&mut self)
        requires { self.old.frame + 1 < self.old.frames }
        ensures { self.new ≡ record self.old { frame = self.old.frame + 1 } }
    {
        let latches = self.circuit.latches.as_slice();
        put_nexts(&self.substitution, self.first_gate, latches, &mut self.next);
        self.frame += 1;
        self.first_input += self.circuit.inputs.len() as u32;
        self.first_gate += gates_of_frame(&self.circuit) as u32;
        change_substitution(self.first_input, &self.next, &mut self.substitution);
    }

    /// Goes to a frame: to frame 0 from anywhere, and to a later one from the one before it.
    pub(crate) fn enter_frame(&mut self, frame: u32)
        requires within { frame < self.old.frames }
        requires behind { 0 < frame → frame ≡ self.old.frame + 1 }
        ensures { self.new ≡ record self.old { frame = frame } }
    {
        if frame == 0 {
            self.restart();
        } else {
            self.enter_next();
        }
    }
}
