//! The stimulus of a run, where it stands in the text.
ghost use Rattle.std.specs.Prelude.{◌≡◌, ◌*◌, ◌<◌, ◌≤◌, ℕ, List, [], length, slice_index_or};
ghost use Rattle.std.specs.List.{All};
ghost use Rattle.aig_lanes.specs.declared.run.Run.{Run as RunRecord};
ghost use Rattle.aig_lanes.specs.Parts.Vectors.{AreVectors, vectors_in};
ghost use Rattle.aig_step.specs.TraceText.{values_text};

use std::marker::Model;

/// The steps of a run: lines of one length, each of which begins with the characters of the inputs.
#[derive(Drop)]
pub struct Vectors<'a> {
    /// From the first line on.
    lines: &'a [u8],
    inputs: usize,
    /// How long a line is, with its end.
    stride: usize,
    steps: usize,
}

impl<'a> Model for Vectors<'a> {
    ghost use Rattle.aig_lanes.specs.declared.run.Run.{Run as RunRecord};
    ghost use Rattle.aig_lanes.specs.Parts.Vectors.{AreVectors, vectors_in};

    ghost Value = { RunRecord };

    ghost view = { λ v. record { steps = vectors_in v.inputs v.stride v.steps v.lines.now } };

    ghost invariant = { λ v. AreVectors v.inputs v.stride v.steps v.lines.now };
}

impl<'a> Vectors<'a> {
    /// The steps that so many lines say, where each has this length.
    pub fn new(lines: &'a [u8], inputs: usize, stride: usize, steps: usize) -> Self
        requires { AreVectors inputs stride steps lines.now }
        ensures { result.steps ≡ vectors_in inputs stride steps lines.now }
    {
        Vectors {
            lines,
            inputs,
            stride,
            steps,
        }
    }

    /// How many steps the run has.
    #[inline(always)]
    pub fn len(&self) -> usize
        ensures { result ≡ length self.now.steps }
    {
        self.steps
    }

    /// The characters of a step.
    #[inline(always)]
    pub fn text(&self, step: usize) -> &[u8]
        requires { step < length self.now.steps }
        ensures { result.now ≡ values_text (slice_index_or self.now.steps step []) }
    {
        let (_, rest) = self.lines.split_at(step * self.stride);
        let (text, _) = rest.split_at(self.inputs);
        text
    }
}

/// How many steps the longest run has.
pub fn longest_run(runs: &[Vectors]) -> usize
    ensures most { (j : ℕ) (d : RunRecord) → j < length runs.now
        → length (slice_index_or runs.now j d).steps ≤ result }
    ensures least { (size bound : ℕ) → 0 < bound
        → All (λ (run : RunRecord). length run.steps * size < bound) runs.now
        → result * size < bound }
{
    let mut longest = 0;
    for run in runs {
        if run.len() > longest {
            longest = run.len();
        }
    }
    longest
}

/// The runs of a group.
#[derive(Drop)]
pub struct RunGroup<'a> {
    runs: Vec<Vectors<'a>>,
}

impl<'a> Model for RunGroup<'a> {
    ghost use Rattle.std.specs.Prelude.{List};
    ghost use Rattle.aig_lanes.specs.declared.run.Run.{Run as RunRecord};

    ghost Value = { List RunRecord };

    ghost view = { λ g. g.runs.items };
}

impl<'a> RunGroup<'a> {
    /// The group of these runs.
    pub fn new(runs: Vec<Vectors<'a>>) -> Self
        ensures { result ≡ runs.entry.items }
    {
        RunGroup { runs }
    }

    /// The runs.
    pub fn as_slice(&self) -> &[Vectors<'a>]
        ensures { result.now ≡ self.now }
    {
        &self.runs
    }
}
