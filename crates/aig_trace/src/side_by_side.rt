//! Steps of a circuit without latches. None needs the one before it, so they wait, and are taken
//! side by side.
ghost use Rattle.std.specs.Prelude.{◌≡◌, ◌<◌, ◌∷◌, [], IfOk, None, Some, false, length};
ghost use Rattle.std.specs.Prelude.{slice_index_or, true};
ghost use Rattle.aig_step.specs.Parts.Lines.{line_size};
ghost use Rattle.aig_step.specs.Stimulus.{Stop, entry_in};
ghost use Rattle.aig_trace.specs.Parts.Tracing.{AcceptedLine, Did, MovedOn};
ghost use Rattle.aig_trace.specs.Parts.Waits.{HasRoomForLine, Serves, entries_of, entry_at};

use crate::entry::is_vector;
use crate::row_taker::RowTaker;
use crate::tracer::Tracer;
use crate::waiting::Waiting;
use aig_circuit::OutOfMemory;
use aig_lanes::{Bench, ShownLine};
use aig_step::is_stop;
use std::alloc::Global;

/// The most inputs of a circuit whose steps wait. More would take much room.
pub const MOST_INPUTS: usize = 65_536;

/// The fewest steps that are worth taking side by side.
const FEWEST: usize = 16;

/// What takes lines for a circuit without latches.
#[derive(Drop)]
pub(crate) struct SideBySide {
    tracer: Tracer,
    bench: Bench,
    waiting: Waiting,
    ghost serves: { Serves tracer.circuit tracer.columns bench waiting },
}

impl SideBySide {
    ghost use Rattle.aig_trace.specs.Parts.Taking.{KeepsLanes, ShowsSteps, lines_in};

    /// No line waits. All room that it needs is made here.
    pub(crate) fn new(alloc: Global, tracer: Tracer, line_room: usize) -> Result<Self, OutOfMemory>
        requires stateless { tracer.circuit.latches ≡ [] }
        requires line { line_room ≡ line_size tracer.circuit }
        ensures same { IfOk result (λ a. a.tracer ≡ tracer) }
        ensures none { IfOk result (λ a. entries_of a.waiting ≡ []) }
    {
        let machine = tracer.machine();
        let parts = machine.parts();
        // That there are not too many inputs to count their characters is known by this read.
        let _largest = parts.max_var; // for the proof
        let waiting = Waiting::new(alloc, parts.inputs.len())?;
        let bench = Bench::for_steps(alloc, machine, tracer.columns(), line_room)?;
        Ok(SideBySide {
            tracer,
            bench,
            waiting,
        })
    }

    /// What runs the circuit.
    pub(crate) fn tracer(&self) -> &Tracer
        ensures { result.now ≡ self.now.tracer }
    {
        &self.tracer
    }

    /// Puts the line of a step that waits, which a lane shows.
    #[inline(always)]
    fn put_step<T: RowTaker>(&mut self, output: &mut T, step: usize)
        requires step { step < self.old.waiting.steps }
        requires shows { ShowsSteps self.old }
        ensures did { Did T.took self.old.tracer self.new.tracer
            (entry_at self.old.waiting.inputs self.old.waiting.texts.items (Some step) ∷ [])
            output.old output.new }
        ensures lanes { KeepsLanes self.old self.new }
    {
        let line = ShownLine {
            given: self.waiting.text(step),
            shown: &self.bench.shown,
            sheet: &self.bench.sheet,
            step: 0,
            lane: step,
        };
        output.take_row(&mut self.bench.line, &line, &mut ());
        self.tracer.note_step();
    }

    /// Puts the text for a line that waits, where lanes show the steps.
    #[inline(always)]
    fn put_line<T: RowTaker>(&mut self, output: &mut T, line: usize)
        requires line { line < self.old.waiting.count }
        requires shows { ShowsSteps self.old }
        ensures did { Did T.took self.old.tracer self.new.tracer
            (slice_index_or (entries_of self.old.waiting) line Stop ∷ []) output.old output.new }
        ensures lanes { KeepsLanes self.old self.new }
    {
        match self.waiting.step_of(line) {
            Some(step) => self.put_step(output, step),
            None => self.tracer.stop(output),
        }
    }

    /// Puts the text for all lines that wait, where lanes show the steps.
    fn put_lines<T: RowTaker>(&mut self, output: &mut T)
        requires { ShowsSteps self.old }
        ensures did { Did T.took self.old.tracer self.new.tracer (entries_of self.old.waiting)
            output.old output.new }
        ensures waits { self.new.waiting ≡ self.old.waiting }
    {
        for line in 0..self.waiting.len() {
            self.put_line(output, line);
        }
    }

    /// Takes all lines that wait, one after the other.
    fn take_lines<T: RowTaker>(&mut self, output: &mut T)
        ensures did { Did T.took self.old.tracer self.new.tracer (entries_of self.old.waiting)
            output.old output.new }
        ensures waits { self.new.waiting ≡ self.old.waiting }
    {
        for line in 0..self.waiting.len() {
            let _good = self.tracer.take_line(output, self.waiting.line_text(line));
        }
    }

    /// Puts the text for all lines that wait, which are not let go yet.
    #[inline(never)]
    fn put_waiting<T: RowTaker>(&mut self, output: &mut T)
        ensures did { Did T.took self.old.tracer self.new.tracer (entries_of self.old.waiting)
            output.old output.new }
        ensures waits { self.new.waiting ≡ self.old.waiting }
    {
        if self.waiting.steps() < FEWEST {
            self.take_lines(output);
            return;
        }
        self.bench
            .step_across(self.tracer.machine(), &self.waiting.vectors());
        self.put_lines(output);
    }

    /// Puts the text for all lines that wait, and lets them go.
    pub(crate) fn settle<T: RowTaker>(&mut self, output: &mut T)
        ensures did { Did T.took self.old.tracer self.new.tracer (entries_of self.old.waiting)
            output.old output.new }
        ensures none { entries_of self.new.waiting ≡ [] }
        ensures room { HasRoomForLine self.new.waiting }
    {
        self.put_waiting(output);
        self.waiting.clear();
    }

    /// Puts the text for all lines that wait where no more may, so that one more may.
    #[inline(always)]
    fn make_room<T: RowTaker>(&mut self, output: &mut T)
        ensures moved { MovedOn T.took (lines_in self.old output.old) (lines_in self.new output.new) }
        ensures room { HasRoomForLine self.new.waiting }
    {
        if !self.waiting.is_full() {
            return;
        }
        self.settle(output);
    }

    /// Lets a line of this text wait, if it says anything, and answers whether it does. Where there
    /// is no room for it, the text for those before it is put first.
    pub(crate) fn take_line<T: RowTaker>(&mut self, output: &mut T, text: &[u8]) -> bool
        ensures good { result ≡ true
            → AcceptedLine T.took (lines_in self.old output.old) (lines_in self.new output.new) text.now }
        ensures bad { result ≡ false
            → entry_in (length self.old.tracer.circuit.inputs) text.now ≡ None }
        ensures stays { result ≡ false → (output.new ≡ output.old) × (self.new ≡ self.old) }
    {
        if is_vector(self.tracer.count_inputs(), text) {
            self.make_room(output);
            self.waiting.push_step(text);
            return true;
        }
        if !is_stop(text) {
            return false;
        }
        self.make_room(output);
        self.waiting.push_stop();
        true
    }
}
