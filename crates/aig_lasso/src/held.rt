//! A run that is held as characters.
ghost use Rattle.std.specs.Prelude.{◌≡◌, ◌<◌, None, Ok, List, OnErr, Some, false, length};
ghost use Rattle.std.specs.Prelude.{IfOk, map, option_map, slice_index_or, true, if◌then◌else◌, []};
ghost use Rattle.std.specs.List.{AllByRecursion};
ghost use Rattle.aig_circuit.specs.declared.value.Val.{Val as Value};
ghost use Rattle.aig_step.specs.Parts.Lines.{vector_in};
ghost use Rattle.aig_step.specs.Stimulus.{value_of, values_of};
ghost use Rattle.aig_step.specs.TraceText.{values_text};
ghost use Rattle.aig_lasso.specs.Runs.{run_from, value_held, longer_by};

use aig_circuit::OutOfMemory;
use std::alloc::Global;
use std::marker::Model;

/// A first state, and the inputs of steps, each value as its character: `0`, `1` or `x`.
#[derive(Drop)]
pub struct HeldRun {
    first: Vec<u8>,
    /// The characters of the steps, one step after another.
    steps: Vec<u8>,
    /// How many inputs each step has.
    inputs: usize,
    /// How many steps there are.
    count: usize,
}

impl Model for HeldRun {
    ghost use Rattle.std.specs.Prelude.{map as each};
    ghost use Rattle.aig_lasso.specs.Runs.{HoldsCharacters, StartedRun, steps_held, value_held as held};

    ghost Value = { StartedRun };

    ghost view = { λ r. record {
      inputs = r.inputs;
      first = each held r.first.items;
      steps = steps_held r.inputs r.count r.steps.items;
    } };

    ghost invariant = { λ r. HoldsCharacters r.first.items r.steps.items r.inputs r.count };
}

fn is_character(byte: u8) -> bool
    ensures { value_of byte ≡ (if result then Some (value_held byte) else None) }
{
    matches!(byte, b'0' | b'1' | b'x')
}

/// Whether each character stands for a value.
fn are_characters(text: &[u8]) -> bool
    ensures { values_of text.now ≡ (if result then Some (map value_held text.now) else None) }
{
    for character in text {
        if !is_character(*character) {
            return false;
        }
    }
    true
}

/// Whether the text says the inputs of a step that has so many.
pub fn says_step(text: &[u8], inputs: usize) -> bool
    ensures { vector_in inputs text.now
        ≡ (if result then Some (map value_held text.now) else None) }
{
    if text.len() != inputs {
        return false;
    }
    are_characters(text)
}

impl HeldRun {
    /// A run without steps, of so many inputs, from the state that the text says, if it says one.
    pub fn from_state(
        alloc: Global,
        text: &[u8],
        inputs: usize,
    ) -> Result<Option<HeldRun>, OutOfMemory>
        ensures { IfOk result (λ run. run ≡ option_map (run_from inputs) (values_of text.now)) }
    {
        if !are_characters(text) {
            return Ok(None);
        }
        let first = text.to_vec(alloc)?;
        Ok(Some(HeldRun {
            first,
            steps: Vec::new(alloc),
            inputs,
            count: 0,
        }))
    }

    /// Adds a step if the text says its inputs, and answers whether it does.
    pub fn push_step(&mut self, text: &[u8]) -> Result<bool, OutOfMemory>
        ensures good { result ≡ Ok true → (given : List Value)
            × (vector_in self.old.inputs text.now ≡ Some given)
            × (self.new ≡ longer_by self.old given) }
        ensures bad { result ≡ Ok false → vector_in self.old.inputs text.now ≡ None }
        ensures stays { result ≡ Ok false → self.new ≡ self.old }
        ensures err { OnErr result (self.new ≡ self.old) }
    {
        if !says_step(text, self.inputs) {
            return Ok(false);
        }
        let Some(count) = self.count.checked_add(1) else {
            return Err(OutOfMemory);
        };
        self.steps.extend_from_slice(text)?;
        self.count = count;
        Ok(true)
    }

    /// The characters of the first state.
    pub(crate) fn first(&self) -> &[u8]
        ensures { result.now ≡ values_text self.now.first }
    {
        &self.first
    }

    /// How many inputs each step has.
    pub(crate) fn inputs(&self) -> usize
        ensures is { result ≡ self.now.inputs }
        ensures each { AllByRecursion (λ (given : List Value). length given ≡ self.now.inputs)
            self.now.steps }
    {
        self.inputs
    }

    /// How many steps there are.
    pub(crate) fn count(&self) -> usize
        ensures { result ≡ length self.now.steps }
    {
        self.count
    }

    /// The characters of the step of this number.
    pub(crate) fn step(&self, number: usize) -> &[u8]
        requires { number < length self.now.steps }
        ensures { result.now ≡ values_text (slice_index_or self.now.steps number []) }
    {
        let start = number * self.inputs;
        &self.steps[start..start + self.inputs]
    }
}
