//! The lines of a witness file, of a bad state or of a justice property.
ghost use Rattle.std.specs.Prelude.{◌≡◌, ◌≢◌, ◌⊎◌, ◌+◌, ◌-◌, ◌^◌, ◌<◌, ◌≤◌, IfErr, IfOk, None, false, length};
ghost use Rattle.std.specs.Prelude.{true, if◌then◌else◌, Bool};
ghost use Rattle.aig_circuit.specs.declared.circuit.TheConstants.{LARGEST};
ghost use Rattle.aig_meaning.specs.Meaning.{MeansTheSame};
ghost use Rattle.aig_step.specs.Parts.Lines.{vector_in};
ghost use Rattle.aig_step.specs.Stimulus.{entry_in};
ghost use Rattle.aig_verdicts.specs.Comments.{begins_with};
ghost use Rattle.aig_verdicts.specs.Parts.Reading.{IsBegun, TookAs, TookEntry, TookFirstState, TookProperty};
ghost use Rattle.aig_verdicts.specs.Parts.Reading.{TookStep, IsDone, longest_file_line};
ghost use Rattle.aig_verdicts.specs.declared.reader.Stage.TheVariants as stage;
ghost use Rattle.aig_witness.specs.Parts.Witnessing.{HasWitnessState, WitnessState};
ghost use Rattle.aig_witness.specs.Parts.Witnessing.{witness_step};
ghost use Rattle.aig_witness.specs.Witness.{Said, first_state_in, property_by, shape_of};
ghost use Rattle.aig_witness.specs.declared.checker.Due.TheVariants as due;
ghost use Rattle.aig_lines.specs.Feeding.{TookTurn};

use crate::comment::{LONGEST_COMMENT, begins_with, is_comment};
use crate::held::{hold_first, hold_step};
use aig_checked::Checked;
use aig_circuit::OutOfMemory;
use aig_lasso::{HeldRun, says_step};
use aig_lines::LineTaker;
use aig_step::is_stop;
use aig_witness::{Checker, property_by};
use std::alloc::Global;
use std::marker::Model;

/// Which lines are due.
#[derive(Clone, Copy)]
pub(crate) enum Stage {
    /// Those of a bad state, which a checker takes, or the line that names a justice property.
    BadState,
    /// The line of the first state, from which a justice property is to be met.
    FirstState,
    /// A line of a step, or the line `.`.
    Steps,
    /// None.
    Nothing,
}

/// What reads a witness file. It follows the steps to a bad state as they come, and holds those of
/// a justice property, for which there are more passes.
#[derive(Drop)]
pub(crate) struct Reader {
    alloc: Global,
    pub(crate) checker: Checker,
    /// How many justice properties there are.
    justices: usize,
    pub(crate) stage: Stage,
    /// The justice property that was named; 0 before.
    pub(crate) property: u32,
    /// What is said of it, unless there was no memory to hold that: the lines are judged still.
    pub(crate) held: Option<HeldRun>,
}

impl Model for Reader {
    ghost use Rattle.std.specs.Prelude.{◌≤◌};
    ghost use Rattle.aig_circuit.specs.declared.circuit.TheConstants.{LARGEST};
    ghost use Rattle.aig_verdicts.specs.Parts.Reading.{Reading};

    ghost Value = { Reading };

    ghost view = { λ r. record {
      checker = r.checker;
      justices = r.justices;
      stage = r.stage;
      property = r.property;
      held = r.held;
    } };

    ghost invariant = { λ r. r.justices ≤ LARGEST };
}

impl Reader {
    /// It stands before the first line. All room that a file of a bad state needs is made here.
    pub(crate) fn new(alloc: Global, checked: &Checked) -> Result<Self, OutOfMemory>
        ensures same { IfOk result (λ r. MeansTheSame checked.now r.checker.circuit) }
        ensures bad { IfOk result (λ r. length r.checker.circuit.bad ≡ length checked.now.bad) }
        ensures justices { IfOk result (λ r. r.justices ≡ length checked.now.justice.sizes) }
        ensures few { IfOk result (λ r. length r.checker.circuit.bad ≤ LARGEST) }
        ensures few_justices { IfOk result (λ r. r.justices ≤ LARGEST) }
        ensures begun { IfOk result IsBegun }
    {
        let justices = checked.circuit().justice.sizes.len();
        let checker = Checker::new(alloc, checked)?;
        Ok(Reader {
            alloc,
            checker,
            justices,
            stage: Stage::BadState,
            property: 0,
            held: None,
        })
    }

    /// How long a line may be: none that is due is longer, and no comment.
    pub(crate) fn longest_line(&self) -> usize
        ensures is { result ≡ longest_file_line (shape_of self.now.checker.circuit) }
        ensures few { result < 2 ^ 62 }
    {
        self.checker.longest_line().max(LONGEST_COMMENT)
    }

    /// Takes the line that names a justice property, and answers whether it is good.
    fn take_property(&mut self, text: &[u8]) -> bool
        ensures good { result ≡ true → TookProperty self.old self.new text.now }
        ensures bad { result ≡ false → property_by 106 self.old.justices text.now ≡ None }
        ensures stays { result ≡ false → self.new ≡ self.old }
        ensures checker { self.new.checker ≡ self.old.checker }
    {
        let Some(property) = property_by(b'j', self.justices, text) else {
            return false;
        };
        self.property = property as u32;
        self.stage = Stage::FirstState;
        true
    }

    /// Whether the line is due that names the property, and begins as that of a justice property.
    fn names_justice(&self, text: &[u8]) -> bool
        ensures due { result ≡ true → self.now.checker.due ≡ due.Property }
        ensures yes { result ≡ true → begins_with 106 text.now ≡ true }
        ensures no { result ≡ false → self.now.checker.due ≡ due.Property
            → begins_with 106 text.now ≡ false }
    {
        if !self.checker.awaits_property() {
            return false;
        }
        begins_with(b'j', text)
    }

    /// Takes a line while no justice property is named, and answers whether it is good.
    fn take_early(&mut self, text: &[u8]) -> bool
        requires { self.old.checker.search.steps < 2 ^ 64 - 1 }
        ensures took { self.old.stage ≡ stage.BadState → (justice : Bool) (said : Said)
            → TookAs self.old self.new text.now justice said result }
        ensures counted { self.new.checker.search.steps
            ≤ self.old.checker.search.steps + (if result then 1 else 0) }
    {
        if self.names_justice(text) {
            return self.take_property(text);
        }
        self.checker.take(text)
    }

    /// Takes the line of the first state, and answers whether it is good.
    fn take_first_state(&mut self, text: &[u8]) -> bool
        ensures good { result ≡ true → TookFirstState self.old self.new text.now }
        ensures bad { result ≡ false
            → first_state_in (shape_of self.old.checker.circuit).resets text.now ≡ None }
        ensures stays { result ≡ false
            → self.new ≡ record self.old { checker = self.new.checker } }
        ensures circuit { self.new.checker.circuit ≡ self.old.checker.circuit }
        ensures counted { self.new.checker.search.steps ≡ self.old.checker.search.steps }
    {
        if !self.checker.take_first_state(text) {
            return false;
        }
        self.held = hold_first(self.alloc, text, self.checker.count_inputs());
        self.stage = Stage::Steps;
        true
    }

    /// Takes a step if the text says its inputs, and answers whether it does.
    fn take_step(&mut self, text: &[u8]) -> bool
        ensures good { result ≡ true → TookStep self.old self.new text.now }
        ensures bad { result ≡ false
            → vector_in (length self.old.checker.circuit.inputs) text.now ≡ None }
        ensures stays { result ≡ false → self.new ≡ self.old }
        ensures checker { self.new.checker ≡ self.old.checker }
    {
        if !says_step(text, self.checker.count_inputs()) {
            return false;
        }
        self.held = hold_step(self.held.take(), text);
        true
    }

    /// Takes a line of a step or the line `.`, and answers whether it is one of them.
    fn take_entry(&mut self, text: &[u8]) -> bool
        ensures good { result ≡ true → TookEntry self.old self.new text.now }
        ensures bad { result ≡ false
            → entry_in (length self.old.checker.circuit.inputs) text.now ≡ None }
        ensures stays { result ≡ false → self.new ≡ self.old }
        ensures checker { self.new.checker ≡ self.old.checker }
    {
        if self.take_step(text) {
            return true;
        }
        if !is_stop(text) {
            return false;
        }
        self.stage = Stage::Nothing;
        true
    }

    /// Takes a line, and answers whether it is one that is due.
    fn take_line(&mut self, text: &[u8]) -> bool
        requires { self.old.checker.search.steps < 2 ^ 64 - 1 }
        ensures took { (justice : Bool) (said : Said)
            → TookAs self.old self.new text.now justice said result }
        ensures counted { self.new.checker.search.steps
            ≤ self.old.checker.search.steps + (if result then 1 else 0) }
    {
        match self.stage {
            Stage::BadState => self.take_early(text),
            Stage::FirstState => self.take_first_state(text),
            Stage::Steps => self.take_entry(text),
            Stage::Nothing => false,
        }
    }

    /// Whether no line is due.
    pub(crate) fn is_whole(&self) -> bool
        ensures whole { result ≡ true → IsDone self.now }
        ensures due { result ≡ false → ¬ IsDone self.now }
    {
        match self.stage {
            Stage::BadState => self.checker.is_whole(),
            Stage::Nothing => true,
            _ => false,
        }
    }
}

impl LineTaker for Reader {
    ghost use Rattle.aig_verdicts.specs.Parts.Reading.{IsReading, ReadingState, file_step};

    ghost State = { ReadingState };

    ghost step = { file_step };

    ghost IsAt = { IsReading };

    ghost counted = { λ r. r.checker.search.steps };

    #[tactic(auto, using(crate::proofs::Lines::step_taken))]
    fn take(&mut self, text: &[u8]) -> bool {
        if is_comment(text) {
            return true;
        }
        self.take_line(text)
    }
}
