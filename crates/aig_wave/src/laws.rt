//! Laws: facts about the definitions alone, each the contract of a function with an empty body.
ghost use Rattle.aig_wave.specs.Laws.{BegunDumpsLoseNothing, CodesAreDistinct, DumpsLoseNothing};
ghost use Rattle.aig_wave.specs.Laws.{DumpsTellTheirEnds, HeadIsPlain, NoLineIsLeftOut};
ghost use Rattle.aig_wave.specs.Laws.{SameShownSameWave, WaveGrows};

/// The head of a dump is plain text, whatever the names are.
#[tactic(auto, using(crate::proofs::Plain::plain_head))]
pub fn head_is_plain()
    ensures { HeadIsPlain }
{}

/// Each signal of a circuit has an identifier code of its own.
#[tactic(auto, using(crate::proofs::Distinct::codes_are_distinct))]
pub fn codes_are_distinct()
    ensures { CodesAreDistinct }
{}

/// Circuits that show the same have the same dumps.
pub fn same_shown_same_wave()
    ensures { SameShownSameWave }
{}

/// The dump of a beginning of a trace text is a beginning of its dump.
pub fn wave_grows()
    ensures { WaveGrows }
{}

/// Each line of the trace of a stimulus has its frame.
pub fn no_line_is_left_out()
    ensures { NoLineIsLeftOut }
{}

/// A dump loses nothing: it is the dump of one trace text at most.
pub fn dumps_lose_nothing()
    ensures { DumpsLoseNothing }
{}

/// A dump without its end loses no line that came either: it is that of one trace text at most.
pub fn begun_dumps_lose_nothing()
    ensures { BegunDumpsLoseNothing }
{}

/// A dump tells whether it has its end.
pub fn dumps_tell_their_ends()
    ensures { DumpsTellTheirEnds }
{}
