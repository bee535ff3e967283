//! From the values of an answer to the run that they give.
ghost use Rattle.std.specs.Prelude.{◌≡◌, List, length, map, option_map, IfSome};
ghost use Rattle.aig_circuit.specs.declared.circuit.Circuit.{Circuit as CircuitRecord};
ghost use Rattle.aig_circuit.specs.declared.circuit.Latch.{Latch as LatchRecord};
ghost use Rattle.aig_circuit.specs.Wellformed.{IsWellFormed};
ghost use Rattle.aig_meaning.specs.Meaning.{MeansTheSame, Row as RowRecord};
ghost use Rattle.aig_meaning.specs.Trace.{IsTrace};
ghost use Rattle.aig_step.specs.TraceText.{values_text};
ghost use Rattle.aig_unroll.specs.Unrolled.{all_inputs, uninitialised};
ghost use Rattle.aig_reach.specs.Cut.{cut_claim};
ghost use Rattle.aig_replay.specs.Finding.{hit_from};
ghost use Rattle.aig_replay.specs.Starting.{AreBits, assigned, first_character, first_characters};
ghost use Rattle.aig_replay.specs.Starting.{used_by};

use crate::search::{Hit, find_hit};
use aig_core::{Latch, Reset};
use aig_step::Stepper;

fn first_character(bits: &[u8], used: usize, reset: Reset) -> u8
    ensures { result ≡ first_character bits.now used reset }
{
    match reset {
        Reset::Zero => b'0',
        Reset::One => b'1',
        Reset::Uninit => { if used < bits.len() { bits[used] } else { b'0' } }
    }
}

fn used_by(reset: Reset) -> usize
    ensures { result ≡ used_by reset }
{
    match reset {
        Reset::Zero | Reset::One => 0,
        Reset::Uninit => 1,
    }
}

/// Puts the characters of a first state, and answers how many values they used.
fn put_first_state(latches: &[Latch], bits: &[u8], state: &mut [u8]) -> usize
    requires { length state.old ≡ length latches.now }
    ensures state { state.new
        ≡ first_characters bits.now 0 (map (λ (l : LatchRecord). l.reset) latches.now) }
    ensures used { result ≡ uninitialised (map (λ (l : LatchRecord). l.reset) latches.now) }
{
    let mut used = 0;
    for place in 0..latches.len() {
        let reset = latches[place].reset;
        state[place] = first_character(bits, used, reset);
        used += used_by(reset);
    }
    used
}

/// A bad state that is reached, and how many values of the answer the first state used: those of
/// the first step stand after them.
#[derive(Clone, Copy)]
pub struct FoundRun {
    pub hit: Hit,
    pub used: usize,
}

/// Runs a circuit over so many steps from the first state that the values of an answer give, by
/// their inputs, until a bad state is reached. The characters of that state are put.
pub fn find_run(
    stepper: &mut Stepper,
    bits: &[u8],
    count: usize,
    state: &mut [u8],
) -> Option<FoundRun>
    requires { length state.old ≡ length stepper.old.circuit.latches }
    ensures found { (c : CircuitRecord) (rows : List RowRecord) → IsWellFormed c
        → MeansTheSame c stepper.old.circuit → AreBits bits.now
        → length bits.now ≡ all_inputs c count
        → IsTrace c (cut_claim c count (assigned bits.now) 0).first
        (cut_claim c count (assigned bits.now) 0).steps rows
        → option_map (λ run. run.hit) result ≡ hit_from 0 rows }
    ensures used { IfSome result (λ run. run.used ≡ uninitialised
        (map (λ (l : LatchRecord). l.reset) stepper.old.circuit.latches)) }
    ensures state { (c : CircuitRecord) → MeansTheSame c stepper.old.circuit → AreBits bits.now
        → state.new ≡ values_text (cut_claim c count (assigned bits.now) 0).first }
{
    let latches = stepper.machine().parts().latches.as_slice();
    let used = put_first_state(latches, bits, state);
    if bits.len() < used {
        return None;
    }
    if !stepper.read_state(state) {
        return None;
    }
    match find_hit(stepper, &bits[used..], count) {
        Some(hit) => Some(FoundRun { hit, used }),
        None => None,
    }
}
