//! What single lines of a witness file say.
ghost use Rattle.std.specs.Prelude.{◌≡◌, ◌≤◌, Some, None, codes, false, length, map, true};
ghost use Rattle.std.specs.Str.{bytes_eq};
ghost use Rattle.aig_circuit.specs.declared.circuit.Latch.{Latch as LatchRecord};
ghost use Rattle.aig_circuit.specs.declared.circuit.TheConstants.{LARGEST};
ghost use Rattle.aig_rows.specs.CanonicalNumber.{is_padded};
ghost use Rattle.aig_witness.specs.Witness.{first_state_in, may_start_at, may_start_in};
ghost use Rattle.aig_witness.specs.Witness.{number_below, property_by, shape_of};
ghost use Rattle.aig_witness.specs.Parts.Witnessing.{digits_below};

use aig_circuit::{Latch, Reset, Val};
use aig_step::{Code, Stepper};

/// Whether the text is the first line.
pub(crate) fn is_version(text: &[u8]) -> bool
    ensures { result ≡ bytes_eq text.now (codes "1") }
{
    text.len() == 1 && text[0] == b'1'
}

/// Whether a zero stands at the front, with another digit after it.
fn is_padded(text: &[u8]) -> bool
    ensures { result ≡ is_padded text.now }
{
    match text {
        [first, next, ..] => next.is_ascii_digit() && *first == b'0',
        _ => false,
    }
}

/// The number that digits spell, if there are but digits and it is below the bound.
#[tactic(auto, using(crate::proofs::WitnessState::digits_high, crate::proofs::WitnessState::spelled_front))]
fn digits_below(text: &[u8], bound: usize) -> Option<usize>
    requires { bound ≤ LARGEST }
    ensures { result ≡ digits_below bound text.now }
{
    let mut value = 0;
    for digit in text {
        if !digit.is_ascii_digit() {
            return None;
        }
        if value >= bound {
            return None;
        }
        value = 10 * value + (*digit - b'0') as usize;
    }
    if value < bound { Some(value) } else { None }
}

/// The number that a text spells canonically, if it is below the bound.
fn number_below(text: &[u8], bound: usize) -> Option<usize>
    requires { bound ≤ LARGEST }
    ensures { result ≡ number_below bound text.now }
{
    if text.is_empty() || is_padded(text) {
        return None;
    }
    digits_below(text, bound)
}

/// The property that a line names by this letter, where there are so many.
pub fn property_by(letter: u8, count: usize, text: &[u8]) -> Option<usize>
    requires { count ≤ LARGEST }
    ensures { result ≡ property_by letter count text.now }
{
    let [first, number @ ..] = text else {
        return None;
    };
    if *first != letter {
        return None;
    }
    number_below(number, count)
}

/// Whether a latch may start at this value.
fn may_start_at(reset: Reset, value: Val) -> bool
    ensures { result ≡ may_start_at reset value }
{
    match (reset, value) {
        (Reset::Zero, Val::Zero) | (Reset::One, Val::One) | (Reset::Uninit, _) => true,
        _ => false,
    }
}

/// Whether each latch may start at its value.
fn may_start_in(latches: &[Latch], state: &[Code]) -> bool
    requires { length state.now ≡ length latches.now }
    ensures { result ≡ may_start_in (map (λ (l : LatchRecord). l.reset) latches.now) state.now }
{
    for i in 0..latches.len() {
        if !may_start_at(latches[i].reset, state[i].value()) {
            return false;
        }
    }
    true
}

/// Reads the first state, and answers whether the text says one that agrees with the resets.
pub(crate) fn read_first_state(text: &[u8], stepper: &mut Stepper) -> bool
    ensures good { result ≡ true
        → first_state_in (shape_of stepper.old.circuit).resets text.now ≡ Some stepper.new.state }
    ensures bad { result ≡ false
        → first_state_in (shape_of stepper.old.circuit).resets text.now ≡ None }
    ensures stays { stepper.new ≡ record stepper.old { state = stepper.new.state } }
{
    if !stepper.read_state(text) {
        return false;
    }
    may_start_in(
        stepper.machine().parts().latches.as_slice(),
        stepper.state(),
    )
}
