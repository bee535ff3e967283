//! Lines that are written where they are to stand.
ghost use Rattle.std.specs.Prelude.{◌≡◌, ◌+◌, ◌≤◌, ◌++◌, ℕ, List, length, take};

/// A line that can be written where there is room for it.
pub trait Line {
    /// What changes when the line is written.
    type State;

    /// What it takes.
    ghost is_whole: { Self → Self.State → Type 0 };

    /// How long it may be.
    ghost size: { Self → Self.State → ℕ };

    /// Its bytes.
    ghost text: { Self → Self.State → List ℕ };

    /// What is known of the state afterwards.
    ghost leads: { Self → Self.State → Self.State → Type 0 };

    /// Writes it from a place on, and answers where it ends.
    fn write(&self, state: &mut Self::State, line: &mut [u8], at: usize) -> usize
        requires whole { is_whole self.now state.old }
        requires room { at + size self.now state.old ≤ length line.old }
        ensures within { result ≤ at + size self.now state.old }
        ensures text { take result line.new ≡ take at line.old ++ text self.now state.old }
        ensures state { leads self.now state.old state.new };
}
