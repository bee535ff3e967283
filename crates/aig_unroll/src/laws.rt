//! Laws: facts about the definitions alone, each the contract of a function with an empty body.
ghost use Rattle.aig_unroll.specs.Laws.{OneUnrolledCircuit, UnrolledIsOrdered};
ghost use Rattle.aig_unroll.specs.Laws.{UnrollingIsPlain, UnrollingKeepsTraces};

/// A well-formed circuit has exactly one unrolled circuit for each number of frames.
pub fn one_unrolled_circuit()
    ensures { OneUnrolledCircuit }
{}

/// The unrolled circuit is well formed and in binary order, where it is not too large.
pub fn unrolled_is_ordered()
    ensures { UnrolledIsOrdered }
{}

/// Without bad states and constraints, and where all latches start at 0, the unrolled circuit is
/// copies of inputs, gates and outputs alone.
#[tactic(auto, using(crate::proofs::Ordering::Frames::plainly_unrolled))]
pub fn unrolling_is_plain()
    ensures { UnrollingIsPlain }
{}

/// The one row of the unrolled circuit is the trace's rows side by side.
pub fn unrolling_keeps_traces()
    ensures { UnrollingKeepsTraces }
{}
