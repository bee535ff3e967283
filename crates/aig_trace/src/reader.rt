//! What takes the bytes of a stimulus.
ghost use Rattle.std.specs.Prelude.{◌≡◌, IfOk};
ghost use Rattle.aig_meaning.specs.Meaning.{MeansTheSame};
ghost use Rattle.aig_trace.specs.Parts.Tracing.{AppendedText, IsFresh};

use crate::line_tracer::LineTracer;
use crate::row_taker::RowTaker;
use crate::taker::Taker;
use crate::tracer::Tracer;
use aig_checked::Checked;
use aig_circuit::OutOfMemory;
use aig_lines::LineFeeder;
use aig_step::{Columns, Machine};
use std::alloc::Global;
use std::marker::Model;

/// What cuts the bytes of a stimulus into lines, and what takes them.
#[derive(Drop)]
pub struct StimulusReader {
    feeder: LineFeeder,
    taker: Taker,
}

impl Model for StimulusReader {
    ghost use Rattle.aig_trace.specs.Parts.Tracing.{Reading};
    ghost use Rattle.aig_trace.specs.Parts.Taking.{tracing_in, waiting_in};

    ghost Value = { Reading };

    ghost view = { λ r. record {
      feeder = r.feeder;
      tracing = tracing_in r.taker;
      waiting = waiting_in r.taker;
    } };
}

impl StimulusReader {
    /// It stands before the first byte. All room that it needs is made here.
    pub fn new(alloc: Global, checked: &Checked, columns: Columns) -> Result<Self, OutOfMemory>
        ensures same { IfOk result (λ r. MeansTheSame checked.now r.tracing.circuit) }
        ensures columns { IfOk result (λ r. r.tracing.columns ≡ columns) }
        ensures fresh { IfOk result (λ r. IsFresh r) }
    {
        let tracer = Tracer::new(alloc, checked, columns)?;
        let taker = Taker::new(alloc, checked, tracer)?;
        let feeder = LineFeeder::new(alloc, checked.circuit().inputs.len().max(1))?;
        Ok(StimulusReader { feeder, taker })
    }

    /// What it runs.
    pub fn machine(&self) -> &Machine
        ensures { result.now ≡ self.now.tracing.circuit }
    {
        self.taker.tracer().machine()
    }

    /// It puts the text into this output.
    pub(crate) fn into_line_tracer<T: RowTaker>(self, output: T) -> (LineFeeder, LineTracer<T>)
        ensures feeder { result.0 ≡ self.feeder }
        ensures lines { result.1
            ≡ record { tracing = self.tracing; waiting = self.waiting; output = output } }
    {
        let StimulusReader { feeder, taker } = self;
        (feeder, LineTracer::new(taker, output))
    }

    /// Puts the text for all lines of the bytes up to the first bad one, and ends the run that is
    /// going on then, if it has a step.
    // Not built into its callers, whose stack would then hold the block of the output more often.
    #[inline(never)]
    pub fn put_trace_text<T: RowTaker>(self, output: T, bytes: &[u8]) -> T
        requires { IsFresh self }
        ensures { AppendedText T.took self.tracing bytes.now output result }
    {
        let (mut feeder, mut lines) = self.into_line_tracer(output);
        let _whole = feeder.feed(&mut lines, bytes);
        let _last = feeder.end(&mut lines);
        drop(feeder); // for the proof
        lines.settle();
        lines.end_run();
        lines.into_output()
    }
}
