//! Laws: facts about the definitions alone, each the contract of a function with an empty body.
ghost use Rattle.aig_invariant.specs.Laws.{InvariantsMeanNever, SatisfiableExactlyWhereBroken};

/// Where the clauses of the circuit with an invariant are refuted, no claim is ever confirmed.
pub fn invariants_mean_never()
    ensures { InvariantsMeanNever }
{}

/// The clauses of a circuit with an invariant can be satisfied exactly where a step breaks it.
pub fn satisfiable_exactly_where_broken()
    ensures { SatisfiableExactlyWhereBroken }
{}
