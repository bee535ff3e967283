//! Laws: facts about the definitions alone, each the contract of a function with an empty body.
ghost use Rattle.aig_equal.specs.Laws.{AlikeExactlyWhereUnreached, InvariantMeansAlike};
ghost use Rattle.aig_equal.specs.Laws.{AllStartAlikeWithoutPairs, OneStepSaysAll};
ghost use Rattle.aig_equal.specs.Laws.{RefutedMeansAlike};

/// Two circuits are alike for so many steps exactly where no bad state of their miter is reached in
/// these.
pub fn alike_exactly_where_unreached()
    ensures { AlikeExactlyWhereUnreached }
{}

/// Where the clauses of the unrolled miter are refuted, the circuits are alike for so many steps.
pub fn refuted_means_alike()
    ensures { RefutedMeansAlike }
{}

/// Where the clauses of the miter with an invariant are refuted, they are alike at every step.
pub fn invariant_means_alike()
    ensures { InvariantMeansAlike }
{}

/// Where not both have an uninitialised latch, nothing is asked of the states they start in.
pub fn all_start_alike_without_pairs()
    ensures { AllStartAlikeWithoutPairs }
{}

/// Where circuits have no latches, one step says all.
pub fn one_step_says_all()
    ensures { OneStepSaysAll }
{}
