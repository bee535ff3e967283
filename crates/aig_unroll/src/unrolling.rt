//! The circuit unrolled.
ghost use Rattle.std.specs.Prelude.{◌≡◌, ◌↔◌, ◌+◌, ◌*◌, ◌≤◌, length, IfErr, IfOk, IsTrue, OnOk};
ghost use Rattle.std.specs.List.{flat_map, range_with_len};
ghost use Rattle.aig_circuit.specs.Wellformed.{IsWellFormed};
ghost use Rattle.aig_unroll.specs.Unrolled.{IsTooLarge, IsUnrolled};
ghost use Rattle.aig_unroll.specs.Unrolled.{IsUnsupported, all_inputs, bad_at};
ghost use Rattle.aig_unroll.specs.Unrolled.{frame_size, gates_at, outputs_at, unrolled};
ghost use Rattle.aig_unroll.specs.Outcome.{NotUnrolled};
ghost use Rattle.aig_unroll.specs.Parts.Frames.{IsPutAt, circuit_with};

use crate::frames::{Frames, count_uninitialised};
use aig_core::{
    Checked, Circuit, Gate, Justice, LARGEST, Listing, Lit, Ordered, OutOfMemory, Symbols, Var,
};
use aig_fault::{Kind, Stopped, refused_whole};
use aig_image::{Steps, binary_image};
use std::alloc::{AllocError, Global};

/// Each bad state has a gate, so there are never too many of these alone.
fn is_too_large(circuit: &Circuit, frames: u32) -> bool
    requires formed { IsWellFormed circuit.now }
    requires frames { frames ≤ 1000000 }
    ensures { IsTrue result ↔ IsTooLarge circuit.now frames }
{
    let uninitialised = count_uninitialised(circuit.latches.as_slice());
    let gates = circuit.gates.len() + circuit.constraints.len() + circuit.bad.len();
    let frames = frames as usize;
    let largest = LARGEST as usize;
    largest < uninitialised + frames * circuit.inputs.len() + frames * gates
        || largest < frames * circuit.outputs.len()
}

/// Whether a circuit can be unrolled, where there is memory for it.
pub(crate) fn check_supported(circuit: &Circuit, frames: u32) -> Result<(), Stopped>
    requires formed { IsWellFormed circuit.now }
    requires frames { frames ≤ 1000000 }
    ensures supported { OnOk result ((¬ IsUnsupported circuit.now)
        × (¬ IsTooLarge circuit.now frames)) }
    ensures err { IfErr result (NotUnrolled circuit.now frames) }
{
    if !circuit.justice.sizes.is_empty() || !circuit.fairness.is_empty() {
        Err(refused_whole(Kind::NotUnrollable))
    } else if is_too_large(circuit, frames) {
        Err(refused_whole(Kind::TooLargeUnrolled))
    } else {
        Ok(())
    }
}

fn first_variables(alloc: Global, count: u32) -> Result<Vec<Var>, AllocError>
    ensures { IfOk result (λ variables. variables.items ≡ range_with_len 1 count) }
{
    let mut variables = Vec::with_capacity(alloc, count as usize)?;
    for before in 0..count {
        variables.push(Var(1 + before))?;
    }
    Ok(variables)
}

/// Puts the outputs, the bad states and the gates of one frame at the place of its number.
#[tactic(auto, using(crate::proofs::Ordering::Frames::row_end))]
fn place_frame(
    copies: &Frames,
    frame: usize,
    outputs: &mut [Lit],
    bad: &mut [Lit],
    gates: &mut [Gate],
)
    requires frame { frame ≡ copies.now.frame }
    requires outputs { length outputs.old ≡ copies.now.frames * length copies.now.circuit.outputs }
    requires bad { length bad.old ≡ copies.now.frames * length copies.now.circuit.bad }
    requires gates { length gates.old ≡ copies.now.frames * frame_size copies.now.circuit }
    ensures outputs { IsPutAt (outputs_at copies.now.circuit copies.now.frames)
        (length copies.now.circuit.outputs) frame outputs.old outputs.new }
    ensures bad { IsPutAt (bad_at copies.now.circuit copies.now.frames)
        (length copies.now.circuit.bad) frame bad.old bad.new }
    ensures gates { IsPutAt (gates_at copies.now.circuit copies.now.frames)
        (frame_size copies.now.circuit) frame gates.old gates.new }
{
    let circuit = copies.circuit();
    let width = circuit.outputs.len();
    copies.put_outputs(&mut outputs[frame * width..frame * width + width]);
    let width = circuit.bad.len();
    copies.put_bad(&mut bad[frame * width..frame * width + width]);
    let width = copies.count_gates();
    copies.put_gates_from(0, &mut gates[frame * width..frame * width + width]);
}

fn put_frames(mut copies: Frames, outputs: &mut [Lit], bad: &mut [Lit], gates: &mut [Gate])
    requires first { copies.frame ≡ 0 }
    requires outputs { length outputs.old ≡ copies.frames * length copies.circuit.outputs }
    requires bad { length bad.old ≡ copies.frames * length copies.circuit.bad }
    requires gates { length gates.old ≡ copies.frames * frame_size copies.circuit }
    ensures outputs { outputs.new
        ≡ flat_map (outputs_at copies.circuit copies.frames) (range_with_len 0 copies.frames) }
    ensures bad { bad.new ≡ flat_map (bad_at copies.circuit copies.frames)
        (range_with_len 0 copies.frames) }
    ensures gates { gates.new ≡ flat_map (gates_at copies.circuit copies.frames)
        (range_with_len 0 copies.frames) }
{
    place_frame(&copies, 0, outputs, bad, gates);
    for frame in 1..copies.frames() {
        copies.enter_next();
        place_frame(&copies, frame as usize, outputs, bad, gates);
    }
    drop(copies); // for the proof
}

fn unrolled_circuit(
    alloc: Global,
    inputs: Vec<Var>,
    outputs: Vec<Lit>,
    bad: Vec<Lit>,
    gates: Vec<Gate>,
) -> Circuit
    requires { length inputs.items + length gates.items ≤ LARGEST }
    ensures { result ≡ circuit_with inputs.items outputs.items bad.items gates.items }
{
    Circuit {
        max_var: (inputs.len() + gates.len()) as u32,
        inputs: Listing::from_vec(inputs),
        latches: Listing::new(alloc),
        outputs: Listing::from_vec(outputs),
        bad: Listing::from_vec(bad),
        constraints: Listing::new(alloc),
        justice: Justice {
            sizes: Listing::new(alloc),
            literals: Listing::new(alloc),
        },
        fairness: Listing::new(alloc),
        gates: Listing::from_vec(gates),
        symbols: Symbols::new(alloc),
        comment: None,
    }
}

/// Each list takes its memory once.
fn make_lists(
    alloc: Global,
    copies: &Frames,
) -> Result<(Vec<Var>, Vec<Lit>, Vec<Lit>, Vec<Gate>), OutOfMemory>
    requires { copies.now.frame ≡ 0 }
    ensures inputs { IfOk result (λ lists. lists.0.items
        ≡ range_with_len 1 (all_inputs copies.now.circuit copies.now.frames)) }
    ensures outputs { IfOk result (λ lists. length lists.1.items
        ≡ copies.now.frames * length copies.now.circuit.outputs) }
    ensures bad { IfOk result (λ lists. length lists.2.items
        ≡ copies.now.frames * length copies.now.circuit.bad) }
    ensures gates { IfOk result (λ lists. length lists.3.items
        ≡ copies.now.frames * frame_size copies.now.circuit) }
{
    let no_gate = Gate {
        var: Var(0),
        left: Lit(0),
        right: Lit(0),
    };
    let circuit = copies.circuit();
    let frames = copies.frames() as usize;
    let inputs = first_variables(alloc, copies.count_inputs())?;
    let outputs = vec![in alloc; Lit(0); frames * circuit.outputs.len()]?;
    let bad = vec![in alloc; Lit(0); frames * circuit.bad.len()]?;
    let gates = vec![in alloc; no_gate; frames * copies.count_gates()]?;
    Ok((inputs, outputs, bad, gates))
}

fn unroll_image(alloc: Global, image: Ordered, frames: u32) -> Result<Circuit, OutOfMemory>
    requires some { 1 ≤ frames }
    requires fits { ¬ IsTooLarge image frames }
    ensures { IfOk result (λ d. d ≡ unrolled image frames) }
{
    let copies = Frames::new(alloc, image, frames)?;
    match make_lists(alloc, &copies) {
        Ok((inputs, mut outputs, mut bad, mut gates)) => {
            put_frames(copies, &mut outputs, &mut bad, &mut gates);
            Ok(unrolled_circuit(alloc, inputs, outputs, bad, gates))
        }
        Err(refused) => {
            drop(copies); // for the proof
            Err(refused)
        }
    }
}

/// The circuit unrolled over so many frames: copies of it in time, as one circuit without latches.
/// It takes the inputs of all frames; an uninitialised latch has an input of its own for its first
/// value. Its outputs are those of all frames, and its bad states are those of all frames, each
/// while all constraints have held so far. It has no constraints and no names.
///
/// A circuit with justice properties or fairness constraints is refused, and so is one whose
/// unrolled circuit would be too large: both before any memory is taken.
pub fn unroll(alloc: Global, checked: &Checked, frames: u32) -> Result<Ordered, Stopped>
    requires { (1 ≤ frames) × (frames ≤ 1000000) }
    ensures ok { IfOk result (λ d. IsUnrolled checked.now frames d) }
    ensures supported { OnOk result ((¬ IsUnsupported checked.now)
        × (¬ IsTooLarge checked.now frames)) }
    ensures err { IfErr result (NotUnrolled checked.now frames) }
{
    check_supported(checked.circuit(), frames)?;
    let image = binary_image(alloc, checked, &mut Steps::new())?;
    let circuit = unroll_image(alloc, image, frames)?;
    Ok(Ordered::from_well_ordered(circuit))
}
