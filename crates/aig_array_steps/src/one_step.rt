//! One step over words.
ghost use Rattle.std.specs.Prelude.{◌≡◌, ◌+◌, ◌<◌, ◌≤◌, ◌^◌, ℕ, None, length, slice_index, true, false};
ghost use Rattle.std.specs.Prelude.{IfErr, IfOk};
ghost use Rattle.std.specs.Option.{IfSome};
ghost use Rattle.aig_array_steps.specs.Step.{HasNoRoom, IsBadValue, IsFault, IsStepOf, IsStepped};
ghost use Rattle.aig_fault.specs.Stopping.{fault_at};
ghost use Rattle.aig_array_steps.specs.Step.{given_length, values_length as length_of_values};
ghost use Rattle.aig_array_steps.specs.Parts.Words.{AreAsLong, AreOrdered, circuit_in};
ghost use Rattle.aig_array_steps.specs.Parts.Values.{AreGiven};

use crate::evaluate::{fill, show_all};
use crate::numbered::are_numbered;
use crate::sections::{Sections, sections_of, shown_length};
use aig_arrays::Counts;
use aig_fault::{Fault, Kind, Place};

/// A fault of the words or the values.
fn fault(kind: Kind, place: Place) -> Fault
    ensures { result ≡ fault_at kind place 0 }
{
    Fault {
        kind,
        place,
        subject: 0,
    }
}

/// How many bytes of values there are.
pub fn values_length(counts: &Counts) -> usize
    ensures { result ≡ length_of_values counts.now }
{
    1 + counts.max_var as usize + shown_length(counts) + counts.latches as usize
}

/// The place of the first byte that is none of a value, among those that are given.
fn bad_value(counts: &Counts, values: &[u8]) -> Option<usize>
    requires { given_length counts.now < length values.now }
    ensures some { IfSome result (IsBadValue counts.now values.now) }
    ensures none { result ≡ None → AreGiven counts.now values.now }
{
    for place in 1..1 + counts.inputs as usize + counts.latches as usize {
        if values[place] > 2 {
            return Some(place);
        }
    }
    None
}

/// Takes the step.
fn write(counts: &Counts, sections: &Sections, values: &mut [u8])
    requires long { AreAsLong counts.now sections.now }
    requires ordered { AreOrdered counts.now sections.now }
    requires room { length_of_values counts.now ≤ length values.old }
    requires given { AreGiven counts.now values.old }
    ensures { IsStepped (circuit_in counts.now sections.now) values.old values.new }
{
    let (table, shown) = values.split_at_mut(1 + counts.max_var as usize);
    fill(counts, sections, table);
    show_all(counts, sections, table, shown);
}

/// Takes a step of the circuit that the words tell, over its values: a byte each, 0, 1 or 2 for x,
/// of the constant and each variable, then of outputs, bad states, constraints and the next state.
/// Inputs and state are given. Returns whether there is room for the values; where there is none,
/// no step is taken. Symbols are not looked at, and no memory is taken.
#[tactic(auto, using(crate::proofs::Decoded::sections_are_right, crate::proofs::Decoded::some_is_decoded, crate::proofs::Decoded::step_is_of))]
pub fn step(counts: &Counts, words: &[u32], values: &mut [u8]) -> Result<bool, Fault>
    ensures taken { IfOk result (λ has_room. has_room ≡ true
        → IsStepOf counts.now words.now values.old values.new) }
    ensures short { IfOk result (λ has_room. has_room ≡ false
        → HasNoRoom counts.now words.now values.old × (values.new ≡ values.old)) }
    ensures fault { IfErr result (IsFault counts.now words.now values.old) }
    ensures kept { IfErr result (λ _. values.new ≡ values.old) }
{
    let Some(sections) = sections_of(counts, words) else {
        return Err(fault(Kind::BadCounts, Place::Whole));
    };
    if !are_numbered(counts, &sections) {
        return Err(fault(Kind::NotOrdered, Place::Whole));
    }
    if values.len() < values_length(counts) {
        return Ok(false);
    }
    if let Some(place) = bad_value(counts, values) {
        return Err(fault(Kind::BadValue, Place::Value(place as u64)));
    }
    write(counts, &sections, values);
    Ok(true)
}
