//! Laws: facts about the definitions alone, each the contract of a function with an empty body.
ghost use Rattle.aig_claims.specs.LoopMark.{MarkedRunsAreRuns};

/// A run that is shown with the mark of its loop is the circuit's own run.
pub fn marked_runs_are_runs()
    ensures { MarkedRunsAreRuns }
{}
