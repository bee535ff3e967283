//! Lines of a stimulus, and the lines of the trace for them.
ghost use Rattle.std.specs.Prelude.{◌≡◌, ◌+◌, IfOk, None, codes, false, length, true};
ghost use Rattle.aig_circuit.specs.Wellformed.{IsWellFormed};
ghost use Rattle.aig_meaning.specs.Meaning.{MeansTheSame};
ghost use Rattle.aig_step.specs.Stimulus.{entry_in};
ghost use Rattle.aig_trace.specs.Taken.{Took};
ghost use Rattle.aig_step.specs.Parts.Lines.{line_size, vector_in};
ghost use Rattle.aig_trace.specs.Parts.Progress.{begin_of};
ghost use Rattle.aig_trace.specs.Parts.Tracing.{IsSameTracer, TookLine, TookStep, point_of};

use crate::row_taker::RowTaker;
use aig_checked::Checked;
use aig_circuit::OutOfMemory;
use aig_step::{Columns, Machine, RowLine, Stepper, is_stop};
use std::alloc::Global;
use std::marker::Model;

/// What runs a circuit over lines of a stimulus, and what it takes to write the line of a step.
#[derive(Drop)]
pub(crate) struct Tracer {
    stepper: Stepper,
    columns: Columns,
    /// Whether the run that is going on has a step.
    has_step: bool,
    /// A place for a line, which serves where lines may be longer than a block.
    line: Vec<u8>,
}

impl Model for Tracer {
    ghost use Rattle.std.specs.Prelude.{◌≤◌, length};
    ghost use Rattle.aig_step.specs.Parts.Lines.{line_size};
    ghost use Rattle.aig_trace.specs.Parts.Tracing.{Tracing};

    ghost Value = { Tracing };

    ghost view = { λ t. record {
      circuit = t.stepper.circuit;
      columns = t.columns;
      state = t.stepper.state;
      has_step = t.has_step;
    } };

    ghost invariant = { λ t. line_size t.stepper.circuit ≤ length t.line.items };
}

/// How long the line of a step may be.
pub fn line_room(checked: &Checked) -> usize
    ensures size { result ≡ line_size checked.now }
    ensures formed { IsWellFormed checked.now }
{
    let circuit = checked.circuit();
    2 * circuit.latches.len()
        + circuit.inputs.len()
        + circuit.outputs.len()
        + circuit.bad.len()
        + circuit.constraints.len()
        + 6
}

impl Tracer {
    /// It stands before the first line. All room that it needs is made here.
    pub(crate) fn new(
        alloc: Global,
        checked: &Checked,
        columns: Columns,
    ) -> Result<Self, OutOfMemory>
        ensures same { IfOk result (λ t. MeansTheSame checked.now t.circuit) }
        ensures columns { IfOk result (λ t. t.columns ≡ columns) }
        ensures begun { IfOk result (λ t. point_of t ≡ begin_of t.circuit) }
    {
        let line = vec![in alloc; 0; line_room(checked)]?;
        Ok(Tracer {
            stepper: Stepper::new(alloc, checked)?,
            columns,
            has_step: false,
            line,
        })
    }

    /// What it runs.
    pub(crate) fn machine(&self) -> &Machine
        ensures { result.now ≡ self.now.circuit }
    {
        self.stepper.machine()
    }

    /// The columns that are asked for.
    pub(crate) fn columns(&self) -> Columns
        ensures { result ≡ self.now.columns }
    {
        self.columns
    }

    /// How many inputs the circuit has.
    #[inline(always)]
    pub(crate) fn count_inputs(&self) -> usize
        ensures { result ≡ length self.now.circuit.inputs }
    {
        self.machine().parts().inputs.len()
    }

    /// The run that is going on has a step, which was taken elsewhere and led to the same state.
    #[inline(always)]
    pub(crate) fn note_step(&mut self)
        ensures noted { self.new ≡ record self.old { has_step = true } }
        ensures each_latch { length self.old.state ≡ length self.old.circuit.latches }
    {
        // That there is a value for each latch is known by this call.
        let _state = self.stepper.state(); // for the proof
        self.has_step = true;
    }

    /// Whether the run that is going on has a step.
    pub(crate) fn has_step(&self) -> bool
        ensures { result ≡ self.now.has_step }
    {
        self.has_step
    }

    /// Takes a step if the text says its inputs, puts its line, and answers whether it does.
    #[inline(always)]
    pub(crate) fn take_step<T: RowTaker>(&mut self, output: &mut T, text: &[u8]) -> bool
        ensures good { result ≡ true → TookStep T.took self.old self.new output.old output.new text.now }
        ensures bad { result ≡ false → vector_in (length self.old.circuit.inputs) text.now ≡ None }
        ensures none { result ≡ false → output.new ≡ output.old }
        ensures stays { result ≡ false → self.new ≡ self.old }
        ensures same { IsSameTracer self.old self.new }
    {
        if !self.stepper.evaluate_text(text) {
            return false;
        }
        let line = RowLine {
            columns: self.columns,
            inputs: text,
        };
        output.take_row(&mut self.line, &line, &mut self.stepper);
        self.has_step = true;
        true
    }

    /// Ends the run.
    pub(crate) fn stop<T: RowTaker>(&mut self, output: &mut T)
        ensures point { point_of self.new ≡ begin_of self.old.circuit }
        ensures put { Took T.took output.old output.new (codes ".\n") }
        ensures same { IsSameTracer self.old self.new }
    {
        self.stepper.reset();
        self.has_step = false;
        output.take_stop();
    }

    /// Does what the text of a line says, puts the text for it, and answers whether it says
    /// anything.
    #[inline(always)]
    pub(crate) fn take_line<T: RowTaker>(&mut self, output: &mut T, text: &[u8]) -> bool
        ensures good { result ≡ true → TookLine T.took self.old self.new output.old output.new text.now }
        ensures bad { result ≡ false → entry_in (length self.old.circuit.inputs) text.now ≡ None }
        ensures none { result ≡ false → output.new ≡ output.old }
        ensures stays { result ≡ false → self.new ≡ self.old }
        ensures same { IsSameTracer self.old self.new }
    {
        if self.take_step(output, text) {
            return true;
        }
        if !is_stop(text) {
            return false;
        }
        self.stop(output);
        true
    }
}
