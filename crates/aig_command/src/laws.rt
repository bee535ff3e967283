//! Laws: facts about the definitions alone, each the contract of a function with an empty body.
ghost use Rattle.aig_command.specs.Laws.{NumbersAreWithinLimits};

/// Where `clap` finds nothing wrong with the arguments, the numbers that they ask for are within
/// their limits: `--max-var` is at most the largest index, and the frames are 1 to 1,000,000.
#[tactic(auto, using(crate::proofs::Within::command_within))]
pub fn numbers_are_within_limits()
    ensures { NumbersAreWithinLimits }
{}
