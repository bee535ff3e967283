//! What takes the lines of a trace, and sends the dump of it.
ghost use Rattle.std.specs.Prelude.{◌≡◌, List, [], ℕ, false, is_err, true};
ghost use Rattle.aig_io.specs.Output.{Appended, output_to};
ghost use Rattle.aig_wave.specs.declared.wave.WaveTaker.{WaveTaker as WaveTakerRecord};
ghost use Rattle.aig_wave.specs.Dumping.{Dumps};
ghost use Rattle.aig_wave.specs.Frames.{frames_of};
ghost use Rattle.aig_wave.specs.Wave.{dump};

use crate::dump_state::DumpState;
use crate::room::WaveMemory;
use aig_io::{DeviceFault, Line, Output, Sink};
use aig_trace::RowTaker;

/// Takes the trace of a circuit with the columns of its properties, and puts the dump of it, frame
/// by frame.
pub struct WaveTaker<'a, W: Sink> {
    dump_state: DumpState,
    output: Output<'a, W>,
}

impl<'a, W: Sink> WaveTaker<'a, W> {
    /// Nothing was taken yet.
    // Not built into its callers, whose stack would then hold the block of the output more often.
    #[inline(never)]
    pub fn new(room: WaveMemory, sink: &'a mut W) -> Self
        ensures layout { result.dump_state.layout ≡ room }
        ensures output { result.output ≡ output_to W.history sink.entry [] false }
        ensures begun { Dumps result result [] }
    {
        WaveTaker {
            dump_state: room.into_dump_state(),
            output: Output::new(sink),
        }
    }

    /// Ends the dump, with the time at which the last frame ends where the trace is done, and hands
    /// the sink back. Ok means that the sink took all of it.
    // Nor is this built into its callers.
    #[inline(never)]
    pub fn finish(self, done: bool) -> (Result<(), DeviceFault>, &'a mut W)
        ensures reported { self.entry.output.failed ≡ true → is_err result.0 ≡ true }
        ensures put { (from : WaveTakerRecord W) (text : List ℕ) → Dumps from self.entry text
            → Appended from.output (output_to W.history result.1 [] (is_err result.0))
            (dump from.dump_state.layout (frames_of from.dump_state.layout text) done) }
    {
        let WaveTaker {
            dump_state,
            mut output,
        } = self;
        dump_state.put_end(&mut output, done);
        drop(dump_state); // for the proof
        output.finish()
    }
}

impl<'a, W: Sink> RowTaker for WaveTaker<'a, W> {
    ghost use Rattle.std.specs.Prelude.{◌≡◌, []};
    ghost use Rattle.aig_wave.specs.Dumping.{Dumps};

    ghost took = { Dumps };

    ghost failed = { λ s. s.output.failed };

    ghost is_settled = { λ s. s.output.held ≡ [] };

    fn take_row<L: Line>(&mut self, room: &mut [u8], line: &L, state: &mut L::State) {
        let end = line.write(state, room, 0);
        let (text, _line_feed) = room.split_at(end - 1);
        self.dump_state.take_line(&mut self.output, text);
    }

    fn take_stop(&mut self) {
        self.dump_state.take_line(&mut self.output, b".");
    }

    #[tactic(auto, using(crate::proofs::Waved::took_still))]
    fn flush(&mut self) -> Result<(), DeviceFault> {
        self.output.flush()
    }
}
