//! Laws: facts about the definitions alone, each the contract of a function with an empty body.
ghost use Rattle.aig_reduce.specs.Laws.{ReductionsAreSatisfiedAlike};

/// What satisfies the clauses of a circuit gives what satisfies those of what is left of it, by the
/// same inputs and latches, and the other way round.
#[tactic(auto, using(crate::proofs::Reductions::reductions_are_satisfied_alike))]
pub fn reductions_are_satisfied_alike()
    ensures { ReductionsAreSatisfiedAlike }
{}
