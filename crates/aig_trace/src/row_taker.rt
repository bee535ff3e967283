//! What takes a trace line by line: the output for its text, or what makes something else of it.
ghost use Rattle.std.specs.Prelude.{◌≡◌, ◌≤◌, ℕ, List, Bool, [], codes, is_err, length};

use aig_io::{DeviceFault, Line, Output, Sink};
use std::marker::Model;

/// What takes the lines of a trace. It remembers that it failed.
pub trait RowTaker {
    ghost use Rattle.aig_trace.specs.Taken.{IsRowText, Took};

    /// Since it stood there, it took this text.
    ghost took: { Self → Self → List ℕ → Type 0 };

    /// It failed.
    ghost failed: { Self → Bool };

    /// Nothing of what it took waits to be sent.
    ghost is_settled: { Self → Type 0 };

    /// Takes the line of a step. Here is a place that has room for it.
    fn take_row<L: Line>(&mut self, room: &mut [u8], line: &L, state: &mut L::State)
        requires whole { L.is_whole line.now state.old }
        requires room { L.size line.now state.old ≤ length room.old }
        requires row { IsRowText (L.text line.now state.old) }
        ensures took { Took took self.old self.new (L.text line.now state.old) }
        ensures state { L.leads line.now state.old state.new };

    /// Takes the line that ends a run.
    fn take_stop(&mut self)
        ensures { Took took self.old self.new (codes ".\n") };

    /// Sends what it took. Ok means that nothing failed so far.
    fn flush(&mut self) -> Result<(), DeviceFault>
        ensures took { Took took self.old self.new [] }
        ensures settled { is_settled self.new }
        ensures reported { failed self.new ≡ is_err result };
}

/// It puts the text.
impl<'a, W: Sink> RowTaker for Output<'a, W> {
    ghost use Rattle.std.specs.Prelude.{◌≡◌, []};
    ghost use Rattle.aig_io.specs.Output.{Appended};

    ghost took = { Appended };

    ghost failed = { λ o. o.failed };

    ghost is_settled = { λ o. o.held ≡ [] };

    #[inline(always)]
    #[tactic(auto, using(crate::proofs::Taken::appended_more))]
    fn take_row<L: Line>(&mut self, room: &mut [u8], line: &L, state: &mut L::State) {
        self.put_line(room, line, state);
    }

    #[inline]
    #[tactic(auto, using(crate::proofs::Taken::appended_more))]
    fn take_stop(&mut self) {
        self.put(b".\n");
    }

    #[tactic(auto, using(crate::proofs::Taken::appended_more))]
    fn flush(&mut self) -> Result<(), DeviceFault> {
        Output::flush(self)
    }
}

/// A taker that is lent, so that it stays where it is: an output holds a block.
pub struct Lent<'t, T: RowTaker> {
    taker: &'t mut T,
}

impl<'t, T: RowTaker> Model for Lent<'t, T> {
    ghost use Rattle.std.specs.Borrow.{MutBor};

    ghost Value = { MutBor T };

    ghost view = { λ l. l.taker };
}

impl<'t, T: RowTaker> Lent<'t, T> {
    /// It lends this taker.
    pub fn new(taker: &'t mut T) -> Self
        ensures { result ≡ taker.entry }
    {
        Lent { taker }
    }

    /// Gives the taker back.
    pub fn into_taker(self) -> &'t mut T
        ensures { result ≡ self.entry }
    {
        let Lent { taker } = self;
        taker
    }
}

/// The taker takes it.
impl<'t, T: RowTaker> RowTaker for Lent<'t, T> {
    ghost use Rattle.aig_trace.specs.Taken.{TookLent};

    ghost took = { TookLent T.took };

    ghost failed = { λ l. T.failed l.now };

    ghost is_settled = { λ l. T.is_settled l.now };

    #[inline(always)]
    #[tactic(auto, using(crate::proofs::Taken::lent_more))]
    fn take_row<L: Line>(&mut self, room: &mut [u8], line: &L, state: &mut L::State) {
        self.taker.take_row(room, line, state);
    }

    #[inline]
    #[tactic(auto, using(crate::proofs::Taken::lent_more))]
    fn take_stop(&mut self) {
        self.taker.take_stop();
    }

    #[tactic(auto, using(crate::proofs::Taken::lent_more))]
    fn flush(&mut self) -> Result<(), DeviceFault> {
        self.taker.flush()
    }
}
