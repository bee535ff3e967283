//! Laws: facts about the definitions alone, each the contract of a function with an empty body.
ghost use Rattle.aig_reach.specs.Laws.{CutsAreConfirmed, CutsHaveFiles};
ghost use Rattle.aig_reach.specs.Laws.{SatisfiableExactlyWhereReached, UnsatisfiableMeansNone};

/// What satisfies the clauses of the unrolled circuit is cut into a run that is confirmed.
pub fn cuts_are_confirmed()
    ensures { CutsAreConfirmed }
{}

/// There is a witness file of that run.
pub fn cuts_have_files()
    ensures { CutsHaveFiles }
{}

/// Where nothing satisfies them, no witness is confirmed in so many steps.
pub fn unsatisfiable_means_none()
    ensures { UnsatisfiableMeansNone }
{}

/// The clauses can be satisfied exactly where a run reaches a bad state in so many steps.
pub fn satisfiable_exactly_where_reached()
    ensures { SatisfiableExactlyWhereReached }
{}
