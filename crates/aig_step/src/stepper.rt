//! A circuit that is run step by step.
ghost use Rattle.std.specs.Prelude.{◌≡◌, ◌+◌, List, None, Some, false, length, slice_set};
ghost use Rattle.std.specs.Prelude.{true, IfOk};
ghost use Rattle.aig_circuit.specs.declared.value.Val.{Val as Value};
ghost use Rattle.aig_circuit.specs.declared.value.Val.TheVariants.{Zero};
ghost use Rattle.aig_meaning.specs.Meaning.{IsStepAssignment, MeansTheSame};
ghost use Rattle.aig_meaning.specs.Trace.{reset_state};
ghost use Rattle.aig_step.specs.Parts.Lines.{vector_in};
ghost use Rattle.aig_step.specs.Parts.Stepping.{Evaluated, in_next_state};
ghost use Rattle.aig_step.specs.Parts.Tables.{placed, read_from};

use crate::cells::{Code, Table};
use crate::evaluate::{put_reset_state, put_values, read_codes, show_next};
use crate::machine::Machine;
use aig_checked::Checked;
use aig_circuit::{Circuit, OutOfMemory, Val};
use std::alloc::Global;
use std::marker::Model;

/// What runs a circuit, with all room that it takes.
#[derive(Drop)]
pub struct Stepper {
    machine: Machine,
    /// A place for the value of each variable.
    values: Table,
    /// The state before the next step.
    state: Vec<Code>,
}

impl Model for Stepper {
    ghost use Rattle.std.specs.Prelude.{◌≡◌, ◌+◌, length};
    ghost use Rattle.aig_step.specs.Parts.Stepping.{Stepping};

    ghost Value = { Stepping };

    ghost view = { λ s. record { circuit = s.machine; state = s.state.items; values = s.values } };

    ghost invariant = { λ s. (length s.values ≡ 1 + s.machine.max_var)
        × (length s.state.items ≡ length s.machine.latches) };
}

/// Places for the value of each variable, and for the state.
fn new_values_and_state(alloc: Global, parts: &Circuit) -> Result<(Table, Vec<Code>), OutOfMemory>
    ensures values { IfOk result (λ made. length made.0 ≡ 1 + parts.now.max_var) }
    ensures state { IfOk result (λ made. length made.1.items ≡ length parts.now.latches) }
{
    let values = Table::new(alloc, 1 + parts.max_var as usize)?;
    let state = vec![in alloc; Code::of(Val::Zero); parts.latches.len()]?;
    Ok((values, state))
}

impl Stepper {
    /// It runs the circuit, and is in the reset state.
    pub fn new(alloc: Global, checked: &Checked) -> Result<Self, OutOfMemory>
        ensures same { IfOk result (λ s. MeansTheSame checked.now s.circuit) }
        ensures reset { IfOk result (λ s. s.state ≡ reset_state s.circuit) }
    {
        let machine = Machine::new(alloc, checked)?;
        let Ok((values, state)) = new_values_and_state(alloc, machine.parts()) else {
            drop(machine); // for the proof
            return Err(OutOfMemory);
        };
        let mut stepper = Stepper {
            machine,
            values,
            state,
        };
        stepper.reset();
        Ok(stepper)
    }

    /// What it runs.
    #[inline(always)]
    pub fn machine(&self) -> &Machine
        ensures { result.now ≡ self.now.circuit }
    {
        &self.machine
    }

    /// The state before the next step.
    #[inline(always)]
    pub fn state(&self) -> &[Code]
        ensures is { result.now ≡ self.now.state }
        ensures each_latch { length result.now ≡ length self.now.circuit.latches }
    {
        &self.state
    }

    /// The values of the last step.
    #[inline(always)]
    pub fn values(&self) -> &Table
        ensures is { result.now ≡ self.now.values }
        ensures room { length result.now ≡ 1 + self.now.circuit.max_var }
    {
        &self.values
    }

    /// Back to the reset state.
    pub fn reset(&mut self)
        ensures { self.new ≡ record self.old { state = reset_state self.old.circuit } }
    {
        put_reset_state(self.machine.parts().latches.as_slice(), &mut self.state);
    }

    /// Reads a state, and answers whether the text says one.
    pub fn read_state(&mut self, text: &[u8]) -> bool
        ensures good { result ≡ true
            → vector_in (length self.old.circuit.latches) text.now ≡ Some self.new.state }
        ensures bad { result ≡ false → vector_in (length self.old.circuit.latches) text.now ≡ None }
        ensures stays { self.new ≡ record self.old { state = self.new.state } }
    {
        text.len() == self.state.len() && read_codes(text, &mut self.state)
    }

    /// Evaluates a step, where the table has the values of the constant and of the inputs.
    #[inline(always)]
    fn evaluate_rest(&mut self)
        ensures assigned { (given table : List Value)
            → length given ≡ length self.old.circuit.inputs
            → self.old.values ≡ placed 1 given (slice_set table 0 Zero)
            → IsStepAssignment self.old.circuit self.old.state given (read_from self.new.values) }
        ensures stays { self.new ≡ record self.old { values = self.new.values } }
    {
        let parts = self.machine.parts();
        // That there are not too many inputs to count one more is known by this read.
        let _largest = parts.max_var; // for the proof
        self.values.put_codes(1 + parts.inputs.len(), &self.state);
        self.values.evaluate(self.machine.pairs());
    }

    /// Evaluates a step with these inputs.
    pub(crate) fn evaluate(&mut self, given: &[Val])
        requires { length given.now ≡ length self.old.circuit.inputs }
        ensures { Evaluated self.old self.new given.now }
    {
        // That the table has room for the inputs is known by this call.
        let _parts = self.machine.parts(); // for the proof
        self.values.put(0, Val::Zero);
        put_values(1, given, &mut self.values);
        self.evaluate_rest();
    }

    /// Evaluates a step if the text says its inputs, and answers whether it does.
    #[inline(always)]
    pub fn evaluate_text(&mut self, text: &[u8]) -> bool
        ensures good { result ≡ true → (given : List Value)
            × (vector_in (length self.old.circuit.inputs) text.now ≡ Some given)
            × Evaluated self.old self.new given }
        ensures bad { result ≡ false → vector_in (length self.old.circuit.inputs) text.now ≡ None }
        ensures stays { self.new ≡ record self.old { values = self.new.values } }
    {
        if text.len() != self.machine.parts().inputs.len() {
            return false;
        }
        self.values.put(0, Val::Zero);
        if !self.values.put_characters(1, text) {
            return false;
        }
        self.evaluate_rest();
        true
    }

    /// On to the state after the step that was evaluated last.
    #[inline(always)]
    pub fn enter_next_state(&mut self)
        ensures { self.new ≡ in_next_state self.old }
    {
        let parts = self.machine.parts();
        show_next(parts.latches.as_slice(), &self.values, &mut self.state);
    }
}
