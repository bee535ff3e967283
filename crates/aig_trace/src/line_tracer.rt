//! What takes the lines of a stimulus, and hands on the lines of the trace for them.
ghost use Rattle.std.specs.Prelude.{◌≡◌, [], codes, if◌then◌else◌, is_err};
ghost use Rattle.aig_trace.specs.Taken.{Took};
ghost use Rattle.aig_trace.specs.Parts.Taking.{tracing_in, waiting_in};
ghost use Rattle.aig_trace.specs.Parts.Tracing.{Did};

use crate::row_taker::RowTaker;
use crate::taker::Taker;
use aig_io::DeviceFault;
use aig_lines::LineTaker;
use std::marker::Model;

/// What takes lines, and what takes the text for them.
pub(crate) struct LineTracer<T: RowTaker> {
    taker: Taker,
    output: T,
}

impl<T: RowTaker> Model for LineTracer<T> {
    ghost use Rattle.aig_trace.specs.Parts.Tracing.{LineTracing};
    ghost use Rattle.aig_trace.specs.Parts.Taking.{tracing_in, waiting_in};

    ghost Value = { LineTracing T };

    ghost view = { λ t. record {
      tracing = tracing_in t.taker;
      waiting = waiting_in t.taker;
      output = t.output;
    } };
}

impl<T: RowTaker> LineTracer<T> {
    /// It goes on from where the taker stands.
    pub(crate) fn new(taker: Taker, output: T) -> Self
        ensures { result ≡ record {
          tracing = tracing_in taker;
          waiting = waiting_in taker;
          output = output;
        } }
    {
        LineTracer { taker, output }
    }

    /// Puts the text for all lines that wait.
    pub(crate) fn settle(&mut self)
        ensures did { Did T.took self.old.tracing self.new.tracing self.old.waiting
            self.old.output self.new.output }
        ensures settled { self.new.waiting ≡ [] }
    {
        if let Taker::SideBySide(side_by_side) = &mut self.taker {
            side_by_side.settle(&mut self.output);
        }
    }

    /// Puts the line that ends the run that is going on, if it has a step.
    pub(crate) fn end_run(&mut self)
        ensures { Took T.took self.old.output self.new.output
            (if self.old.tracing.has_step then codes ".\n" else []) }
    {
        if self.taker.tracer().has_step() {
            self.output.take_stop();
        }
    }

    /// Sends the text that was put. Ok means that the sink took all.
    pub(crate) fn flush(&mut self) -> Result<(), DeviceFault>
        ensures same { self.new.tracing ≡ self.old.tracing }
        ensures waits { self.new.waiting ≡ self.old.waiting }
        ensures put { Took T.took self.old.output self.new.output [] }
        ensures sent { T.is_settled self.new.output }
        ensures reported { T.failed self.new.output ≡ is_err result }
    {
        self.output.flush()
    }

    /// Hands the output back.
    pub(crate) fn into_output(self) -> T
        ensures { result ≡ self.output }
    {
        let LineTracer { taker, output } = self;
        drop(taker); // for the proof
        output
    }
}

impl<T: RowTaker> LineTaker for LineTracer<T> {
    ghost use Rattle.aig_trace.specs.Parts.Saying.{Saying, say_line};
    ghost use Rattle.aig_trace.specs.Parts.Tracing.{HasTraced, Task};

    ghost State = { Saying (Task T) };

    ghost step = { say_line };

    ghost IsAt = { HasTraced T.took };

    #[inline(always)]
    fn take(&mut self, text: &[u8]) -> bool {
        match &mut self.taker {
            Taker::InTurn(tracer) => tracer.take_line(&mut self.output, text),
            Taker::SideBySide(side_by_side) => side_by_side.take_line(&mut self.output, text),
        }
    }
}
