//! What a solver wrote on clauses, and invariants of a model, looked at in memory.
ghost use Rattle.aig_library.specs.Answers.{InvariantAnswers, NeverAnswers, ReachAnswers};
ghost use Rattle.aig_library.specs.Answers.{RefuteAnswers};

use crate::asked::{limit_of, proving, reaching};
use crate::memory::{Inputs, run_in_memory};
use crate::outcome::{BAD_OPTIONS, Outcome, answer, answer_shown, ending};
use crate::texts::can_reach;
use aig_command::SolverFile;
use aig_commands::{Job, Reading};
use aig_core::LARGEST;
use std::alloc::Global;

/// Writes the witness in a solver's answer on the clauses that `write_clauses` writes of this model
/// by these numbers: of the run by the values of the answer, up to the first bad state; or of a
/// lasso, for a justice property.
pub fn reach(
    alloc: Global,
    property: u32,
    frames: u32,
    max_var: u32,
    model: &[u8],
    solved: &[u8],
    output: &mut [u8],
) -> Outcome
    ensures { ReachAnswers property frames max_var model.now solved.now output.old output.new result }
{
    if !can_reach(frames, max_var) {
        return ending(BAD_OPTIONS, 0, 0);
    }
    let inputs = Inputs {
        model,
        file: solved,
        refutation: b"",
    };
    let request = reaching(SolverFile::Answer, property, frames, max_var);
    let job = Job::Read(Reading::Reach(request));
    answer(run_in_memory(alloc, &inputs, job), output)
}

/// Checks a solver's refutation of the clauses that `write_clauses` writes of this model by these
/// numbers. The status is `DONE` where no run of so many steps reaches a bad state, or no lasso has
/// fewer.
pub fn refute(
    alloc: Global,
    property: u32,
    frames: u32,
    max_var: u32,
    model: &[u8],
    refutation: &[u8],
) -> Outcome
    ensures { RefuteAnswers property frames max_var model.now refutation.now result }
{
    if !can_reach(frames, max_var) {
        return ending(BAD_OPTIONS, 0, 0);
    }
    let inputs = Inputs {
        model,
        file: refutation,
        refutation: b"",
    };
    let request = reaching(SolverFile::Refutation, property, frames, max_var);
    let job = Job::Read(Reading::Reach(request));
    answer_shown(run_in_memory(alloc, &inputs, job))
}

/// Writes the clauses in which an invariant of the circuit of an AIGER file is to be shown: where
/// they cannot be satisfied, no run ever reaches the bad state of this number, or any of them for
/// `ALL_BAD`.
pub fn invariant_clauses(
    alloc: Global,
    property: u32,
    max_var: u32,
    model: &[u8],
    invariant: &[u8],
    output: &mut [u8],
) -> Outcome
    ensures { InvariantAnswers property max_var model.now invariant.now output.old output.new result }
{
    if limit_of(max_var) > LARGEST {
        return ending(BAD_OPTIONS, 0, 0);
    }
    let inputs = Inputs {
        model,
        file: invariant,
        refutation: b"",
    };
    let job = Job::Read(Reading::Invariant(proving(false, property, max_var)));
    answer(run_in_memory(alloc, &inputs, job), output)
}

/// Checks a solver's refutation of the clauses that `invariant_clauses` writes of this model and
/// this invariant by these numbers. The status is `DONE` where no run ever reaches a bad state, or
/// none is fair to the justice property.
pub fn never(
    alloc: Global,
    property: u32,
    max_var: u32,
    model: &[u8],
    invariant: &[u8],
    refutation: &[u8],
) -> Outcome
    ensures { NeverAnswers property max_var model.now invariant.now refutation.now result }
{
    if limit_of(max_var) > LARGEST {
        return ending(BAD_OPTIONS, 0, 0);
    }
    let inputs = Inputs {
        model,
        file: invariant,
        refutation,
    };
    let job = Job::Read(Reading::Invariant(proving(true, property, max_var)));
    answer_shown(run_in_memory(alloc, &inputs, job))
}
