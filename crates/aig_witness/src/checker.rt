//! Lines of a witness file, and the steps of a circuit for them.
ghost use Rattle.std.specs.Prelude.{◌≡◌, ◌≢◌, ◌+◌, ◌-◌, ◌^◌, ◌<◌, ◌≤◌, IfOk, None, codes, false};
ghost use Rattle.std.specs.Prelude.{length, map, true, if◌then◌else◌};
ghost use Rattle.std.specs.List.{All};
ghost use Rattle.std.specs.Str.{bytes_eq};
ghost use Rattle.aig_circuit.specs.declared.circuit.TheConstants.{LARGEST};
ghost use Rattle.aig_meaning.specs.Meaning.{MeansTheSame, literal_value};
ghost use Rattle.aig_witness.specs.declared.checker.Due.TheVariants as due;
ghost use Rattle.aig_step.specs.Stimulus.{entry_in};
ghost use Rattle.aig_witness.specs.Witness.{Nothing, Said, first_state_in, property_in, shape_of};
ghost use Rattle.aig_step.specs.Parts.Lines.{vector_in};
ghost use Rattle.aig_step.specs.Parts.Tables.{IsLiteralBelow, read_from};
ghost use Rattle.aig_witness.specs.Parts.Witnessing.{NotDue, StandsWhen, StepTaken, TookDue};
ghost use Rattle.aig_witness.specs.Parts.Witnessing.{TookEntry, TookFirstState, TookProperty};
ghost use Rattle.aig_witness.specs.Parts.Witnessing.{are_ones, is_one, longest_line, verdict_of};

use crate::search::StepSearch;
use crate::verdict::Verdict;
use crate::witness_line::{is_version, property_by, read_first_state};
use aig_checked::Checked;
use aig_circuit::{Lit, OutOfMemory, Val};
use aig_lines::LineTaker;
use aig_step::{Stepper, Table, is_stop};
use std::alloc::Global;
use std::marker::Model;

/// Which line is due.
#[derive(Clone, Copy)]
pub(crate) enum Due {
    /// The line `1`.
    Version,
    /// The line that names a bad state.
    Property,
    /// The line of the first state.
    FirstState,
    /// A line of a step, or the line `.`.
    Steps,
    /// None.
    Nothing,
}

/// What judges the lines of a witness file, and follows what they claim.
#[derive(Drop)]
pub struct Checker {
    stepper: Stepper,
    due: Due,
    search: StepSearch,
}

impl Model for Checker {
    ghost use Rattle.std.specs.Prelude.{◌≡◌, ◌+◌, ◌≤◌, length};
    ghost use Rattle.aig_circuit.specs.declared.circuit.TheConstants.{LARGEST};
    ghost use Rattle.aig_step.specs.Parts.Tables.{IsLiteralBelow};
    ghost use Rattle.aig_witness.specs.Parts.Witnessing.{Witnessing};

    ghost Value = { Witnessing };

    ghost view = { λ c. record {
      circuit = c.stepper.circuit;
      due = c.due;
      state = c.stepper.state;
      search = c.search;
    } };

    ghost invariant = { λ c. IsLiteralBelow (1 + c.stepper.circuit.max_var) c.search.literal
        × (length c.stepper.circuit.bad ≤ LARGEST) };
}

/// Whether the value is 1.
pub fn is_one(value: Val) -> bool
    ensures { result ≡ is_one value }
{
    matches!(value, Val::One)
}

/// Whether each of the literals is 1.
pub fn are_ones(literals: &[Lit], values: &Table) -> bool
    requires { All (IsLiteralBelow (length values.now)) literals.now }
    ensures { result ≡ are_ones (map (literal_value (read_from values.now)) literals.now) }
{
    for literal in literals {
        if !is_one(values.value(*literal)) {
            return false;
        }
    }
    true
}

impl Checker {
    /// It stands before the first line. All room that it needs is made here.
    pub fn new(alloc: Global, checked: &Checked) -> Result<Self, OutOfMemory>
        ensures same { IfOk result (λ c. MeansTheSame checked.now c.circuit) }
        ensures bad { IfOk result (λ c. length c.circuit.bad ≡ length checked.now.bad) }
        ensures few { IfOk result (λ c. length c.circuit.bad ≤ LARGEST) }
        ensures begun { IfOk result (λ c. StandsWhen c Nothing) }
    {
        // That the circuit is well formed is known by this call.
        let _circuit = checked.circuit(); // for the proof
        let stepper = Stepper::new(alloc, checked)?;
        Ok(Checker {
            stepper,
            due: Due::Version,
            search: StepSearch {
                literal: Lit(0),
                steps: 0,
                holds: true,
                found: None,
            },
        })
    }

    /// How long a line may be: none that is due is longer.
    pub fn longest_line(&self) -> usize
        ensures is { result ≡ longest_line (shape_of self.now.circuit) }
        ensures few { result < 2 ^ 62 }
    {
        let parts = self.stepper.machine().parts();
        // That there are not too many inputs and latches is known by this read.
        let _largest = parts.max_var; // for the proof
        // A line that names a bad state has at most eleven bytes.
        parts.latches.len().max(parts.inputs.len()).max(12)
    }

    /// Takes the first line, and answers whether it is good.
    fn take_version(&mut self, text: &[u8]) -> bool
        ensures is { result ≡ bytes_eq text.now (codes "1") }
        ensures leads { result ≡ true → self.new ≡ record self.old { due = due.Property } }
        ensures stays { result ≡ false → self.new ≡ self.old }
        ensures steps { self.new.search.steps ≡ self.old.search.steps }
    {
        if !is_version(text) {
            return false;
        }
        self.due = Due::Property;
        true
    }

    /// Takes the line that names a bad state, and answers whether it is good.
    fn take_property(&mut self, text: &[u8]) -> bool
        ensures good { result ≡ true → TookProperty self.old self.new text.now }
        ensures bad { result ≡ false → property_in (length self.old.circuit.bad) text.now ≡ None }
        ensures stays { result ≡ false → self.new ≡ self.old }
        ensures steps { self.new.search.steps ≡ self.old.search.steps }
    {
        let bad = self.stepper.machine().parts().bad.as_slice();
        let Some(property) = property_by(b'b', bad.len(), text) else {
            return false;
        };
        self.search.literal = bad[property];
        self.due = Due::FirstState;
        true
    }

    /// Takes the line of the first state, and answers whether it is good.
    pub fn take_first_state(&mut self, text: &[u8]) -> bool
        ensures good { result ≡ true → TookFirstState self.old self.new text.now }
        ensures bad { result ≡ false
            → first_state_in (shape_of self.old.circuit).resets text.now ≡ None }
        ensures stays { result ≡ false → self.new ≡ record self.old { state = self.new.state } }
        ensures steps { self.new.search.steps ≡ self.old.search.steps }
    {
        if !read_first_state(text, &mut self.stepper) {
            return false;
        }
        self.due = Due::Steps;
        true
    }

    /// Takes a step if the text says its inputs, and answers whether it does.
    fn take_step(&mut self, text: &[u8]) -> bool
        requires { self.old.search.steps < 2 ^ 64 - 1 }
        ensures good { result ≡ true → StepTaken self.old self.new text.now }
        ensures bad { result ≡ false → vector_in (length self.old.circuit.inputs) text.now ≡ None }
        ensures stays { result ≡ false → self.new ≡ self.old }
        ensures steps { self.new.search.steps ≤ self.old.search.steps + 1 }
    {
        if !self.stepper.evaluate_text(text) {
            return false;
        }
        self.stepper.enter_next_state();
        let values = self.stepper.values();
        let constraints = self.stepper.machine().parts().constraints.as_slice();
        let is_bad = is_one(values.value(self.search.literal));
        let hold = are_ones(constraints, values);
        self.search.look(is_bad, hold);
        true
    }

    /// Takes a line of a step or the line `.`, and answers whether it is one of them.
    fn take_entry(&mut self, text: &[u8]) -> bool
        requires { self.old.search.steps < 2 ^ 64 - 1 }
        ensures good { result ≡ true → TookEntry self.old self.new text.now }
        ensures bad { result ≡ false → entry_in (length self.old.circuit.inputs) text.now ≡ None }
        ensures stays { result ≡ false → self.new ≡ self.old }
        ensures steps { self.new.search.steps ≤ self.old.search.steps + 1 }
    {
        if self.take_step(text) {
            return true;
        }
        if !is_stop(text) {
            return false;
        }
        self.due = Due::Nothing;
        true
    }

    /// Takes a line, and answers whether it is one that is due.
    #[tactic(auto, using(crate::proofs::Witnessing::took_property, crate::proofs::Witnessing::took_first, crate::proofs::Witnessing::took_entry))]
    fn take_line(&mut self, text: &[u8]) -> bool
        requires { self.old.search.steps < 2 ^ 64 - 1 }
        ensures good { result ≡ true → (said : Said) → StandsWhen self.old said
            → TookDue self.old self.new said text.now }
        ensures bad { result ≡ false → (said : Said) → StandsWhen self.old said
            → NotDue self.old self.new said text.now }
        ensures steps { self.new.search.steps ≤ self.old.search.steps + (if result then 1 else 0) }
    {
        match self.due {
            Due::Version => self.take_version(text),
            Due::Property => self.take_property(text),
            Due::FirstState => self.take_first_state(text),
            Due::Steps => self.take_entry(text),
            Due::Nothing => false,
        }
    }

    /// How many inputs a step has.
    pub fn count_inputs(&self) -> usize
        ensures { result ≡ length self.now.circuit.inputs }
    {
        self.stepper.machine().parts().inputs.len()
    }

    /// Whether the line is due that names the property.
    pub fn awaits_property(&self) -> bool
        ensures yes { result ≡ true → self.now.due ≡ due.Property }
        ensures no { result ≡ false → self.now.due ≢ due.Property }
    {
        matches!(self.due, Due::Property)
    }

    /// Whether no line is due.
    pub fn is_whole(&self) -> bool
        ensures whole { result ≡ true → self.now.due ≡ due.Nothing }
        ensures due { result ≡ false → self.now.due ≢ due.Nothing }
    {
        matches!(self.due, Due::Nothing)
    }

    /// What the steps so far come to.
    pub fn verdict(&self) -> Verdict
        ensures { result ≡ verdict_of self.now.search.found }
    {
        self.search.verdict()
    }
}

impl LineTaker for Checker {
    ghost use Rattle.aig_witness.specs.Parts.Witnessing.{HasWitnessState, WitnessState};
    ghost use Rattle.aig_witness.specs.Parts.Witnessing.{witness_step};

    ghost State = { WitnessState };

    ghost step = { witness_step };

    ghost IsAt = { HasWitnessState };

    ghost counted = { λ c. c.search.steps };

    #[tactic(auto, using(crate::proofs::WitnessState::step_taken))]
    fn take(&mut self, text: &[u8]) -> bool {
        self.take_line(text)
    }
}
