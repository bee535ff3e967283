//! Lines of a stimulus that were read, and whose text is not put yet.
ghost use Rattle.std.specs.Prelude.{◌≡◌, ◌+◌, ◌++◌, ◌*◌, ◌<◌, ◌≤◌, ◌^◌, ◌∷◌, ℕ, List, []};
ghost use Rattle.std.specs.Prelude.{IfOk, None, Some, false, true};
ghost use Rattle.std.specs.Prelude.{drop, is_some, length, slice_index_or, take};
ghost use Rattle.aig_circuit.specs.declared.value.Val.{Val as Value};
ghost use Rattle.aig_step.specs.Parts.Lines.{vector_in};
ghost use Rattle.aig_step.specs.Stimulus.{Step, Stop, entry_in};
ghost use Rattle.aig_trace.specs.Parts.WaitingRoom.{IsWaiting};

use aig_circuit::OutOfMemory;
use aig_lanes::Vectors;
use std::alloc::Global;

/// How many steps may wait: one for each lane.
const STEPS: usize = 256;

/// How many lines may wait.
const LINES: usize = 512;

/// Puts characters over others, from a place on.
#[inline(always)]
fn overwrite(texts: &mut [u8], at: usize, text: &[u8])
    requires { at + length text.now ≤ length texts.old }
    ensures before { take at texts.new ≡ take at texts.old }
    ensures here { take (length text.now) (drop at texts.new) ≡ text.now }
{
    texts[at..at + text.len()].copy_from_slice(text);
}

/// Lines that wait: steps, and ends of runs.
#[derive(Drop)]
pub(crate) struct Waiting {
    inputs: usize,
    /// The characters of the steps, one after the other.
    texts: Vec<u8>,
    /// How many steps there are.
    steps: usize,
    /// The step of each line; none where a run ends.
    lines: Vec<Option<usize>>,
    /// How many lines there are.
    count: usize,
    ghost is: { IsWaiting inputs steps count texts.items lines.items },
}

impl Waiting {
    ghost use Rattle.aig_trace.specs.Parts.Waits.{HasRoomForLine, entries_of, entry_at, vectors_of};

    /// No line waits, and there is room for all that may.
    pub(crate) fn new(alloc: Global, inputs: usize) -> Result<Self, OutOfMemory>
        requires { inputs < 2 ^ 54 }
        ensures none { IfOk result (λ w. entries_of w ≡ []) }
        ensures inputs { IfOk result (λ w. w.inputs ≡ inputs) }
    {
        let texts = vec![in alloc; 0; STEPS * inputs]?;
        let lines = vec![in alloc; None; LINES]?;
        Ok(Waiting {
            inputs,
            texts,
            steps: 0,
            lines,
            count: 0,
        })
    }

    /// How many lines wait.
    pub(crate) fn len(&self) -> usize
        ensures is { result ≡ self.now.count }
        ensures each { result ≡ length (entries_of self.now) }
    {
        self.count
    }

    /// How many of them are steps.
    pub(crate) fn steps(&self) -> usize
        ensures { result ≡ self.now.steps }
    {
        self.steps
    }

    /// Whether no more lines may wait.
    #[inline(always)]
    pub(crate) fn is_full(&self) -> bool
        ensures { result ≡ false → HasRoomForLine self.now }
    {
        self.steps == STEPS || self.count == LINES
    }

    /// The step of a line, if it is one.
    #[inline(always)]
    pub(crate) fn step_of(&self, line: usize) -> Option<usize>
        requires { line < self.now.count }
        ensures says { entry_at self.now.inputs self.now.texts.items result
            ≡ slice_index_or (entries_of self.now) line Stop }
        ensures below { (step : ℕ) → result ≡ Some step → step < self.now.steps }
    {
        self.lines[line]
    }

    /// The characters of a step.
    #[inline(always)]
    pub(crate) fn text(&self, step: usize) -> &[u8]
        requires { step < self.now.steps }
        ensures { result.now
            ≡ take self.now.inputs (drop (step * self.now.inputs) self.now.texts.items) }
    {
        let (_, rest) = self.texts.split_at(step * self.inputs);
        let (text, _) = rest.split_at(self.inputs);
        text
    }

    /// The text of a line.
    pub(crate) fn line_text(&self, line: usize) -> &[u8]
        requires { line < self.now.count }
        ensures { entry_in self.now.inputs result.now
            ≡ Some (slice_index_or (entries_of self.now) line Stop) }
    {
        match self.step_of(line) {
            Some(step) => self.text(step),
            None => b".",
        }
    }

    /// The steps.
    pub(crate) fn vectors(&self) -> Vectors<'_>
        ensures { result.steps ≡ vectors_of self.now }
    {
        Vectors::new(&self.texts, self.inputs, self.inputs, self.steps)
    }

    /// Adds a line that is a step.
    #[inline(always)]
    pub(crate) fn push_step(&mut self, text: &[u8])
        requires room { HasRoomForLine self.old }
        requires says { is_some (vector_in self.old.inputs text.now) ≡ true }
        ensures adds { (given : List Value) → vector_in self.old.inputs text.now ≡ Some given
            → entries_of self.new ≡ entries_of self.old ++ Step given ∷ [] }
        ensures inputs { self.new.inputs ≡ self.old.inputs }
    {
        overwrite(&mut self.texts, self.steps * self.inputs, text);
        self.lines[self.count] = Some(self.steps);
        self.steps += 1;
        self.count += 1;
    }

    /// Adds a line that ends a run.
    #[inline(always)]
    pub(crate) fn push_stop(&mut self)
        requires { HasRoomForLine self.old }
        ensures adds { entries_of self.new ≡ entries_of self.old ++ Stop ∷ [] }
        ensures inputs { self.new.inputs ≡ self.old.inputs }
    {
        self.lines[self.count] = None;
        self.count += 1;
    }

    /// Lets all lines go.
    pub(crate) fn clear(&mut self)
        ensures none { entries_of self.new ≡ [] }
        ensures room { HasRoomForLine self.new }
        ensures inputs { self.new.inputs ≡ self.old.inputs }
    {
        self.steps = 0;
        self.count = 0;
    }
}
