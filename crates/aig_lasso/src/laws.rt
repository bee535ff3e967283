//! Laws: facts about the definitions alone, each the contract of a function with an empty body.
ghost use Rattle.aig_lasso.specs.Laws.{LassosAreFairRuns, LongestLoopsMeetMost};
ghost use Rattle.aig_lasso.specs.Laws.{VerdictsAreOnClaims};

/// A lasso is a run without end that is fair.
#[tactic(auto, using(crate::proofs::Round::lassos_are_fair_runs))]
pub fn lassos_are_fair_runs()
    ensures { LassosAreFairRuns }
{}

/// Of loops that come back to one state, the longest meets all that the others meet.
pub fn longest_loops_meet_most()
    ensures { LongestLoopsMeetMost }
{}

/// A verdict on a run of the circuit that shows goals is one on the claim of that run.
#[tactic(auto, using(crate::proofs::Claims::verdicts_are_on_claims))]
pub fn verdicts_are_on_claims()
    ensures { VerdictsAreOnClaims }
{}
