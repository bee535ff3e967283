//! Laws: facts about the definitions alone, each the contract of a function with an empty body.
ghost use Rattle.aig_cuts.specs.Laws.{CutsAreCompleted, CutsFollow};

/// What satisfies the clauses of a circuit satisfies those by a plan.
#[tactic(auto, using(crate::proofs::Completing::cuts_follow))]
pub fn cuts_follow()
    ensures { CutsFollow }
{}

/// What satisfies those by a plan gives what satisfies the clauses of the circuit, by the same
/// inputs.
#[tactic(auto, using(crate::proofs::Completing::cuts_are_completed))]
pub fn cuts_are_completed()
    ensures { CutsAreCompleted }
{}
