//! Laws of dumps: facts about the definitions alone, each the contract of a function with an empty
//! body.
ghost use Rattle.aig_commands.specs.DumpLaws.{ConversionsAreDumpedAlike, DumpsAreKept};
ghost use Rattle.aig_commands.specs.DumpLaws.{DumpsAreUnambiguous, DumpsTellTraces};
ghost use Rattle.aig_commands.specs.WitnessDumpLaws.{VerdictsHaveDumps, WitnessDumpsAreKept};
ghost use Rattle.aig_commands.specs.WitnessDumpLaws.{WitnessDumpsAreUnambiguous};

/// A file and its conversion, or what is undone from it, have one dump of each trace text, where
/// the symbols are kept.
pub fn conversions_are_dumped_alike()
    ensures { ConversionsAreDumpedAlike }
{}

/// A model and a stimulus have one dump at most.
pub fn dumps_are_unambiguous()
    ensures { DumpsAreUnambiguous }
{}

/// A file and its conversion, or what is undone from it, have the same dump of every stimulus,
/// where the symbols are kept.
pub fn dumps_are_kept()
    ensures { DumpsAreKept }
{}

/// A dump tells its trace: two stimuli of a model with one dump have one trace with the properties.
pub fn dumps_tell_traces()
    ensures { DumpsTellTraces }
{}

/// A model and a witness file have a dump exactly where they have a verdict, and with this verdict.
pub fn verdicts_have_dumps()
    ensures { VerdictsHaveDumps }
{}

/// A model and a witness file have one dump at most.
pub fn witness_dumps_are_unambiguous()
    ensures { WitnessDumpsAreUnambiguous }
{}

/// A file and its conversion, or what is undone from it, have the same dump of every witness file,
/// where the symbols are kept.
pub fn witness_dumps_are_kept()
    ensures { WitnessDumpsAreKept }
{}
