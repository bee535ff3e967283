//! Laws: facts about the definitions alone, each the contract of a function with an empty body.
ghost use Rattle.aig_replay.specs.Laws.{AnswersAreFound, FirstIsFound, FoundRunsAreConfirmed};
ghost use Rattle.aig_replay.specs.Laws.{RefutedMeansNone, WitnessTextsSay};
ghost use Rattle.aig_replay.specs.Reached.{AnswersHaveOneWitness};

/// What is found in rows is the first step that confirms a bad state, or there is none.
pub fn first_is_found()
    ensures { FirstIsFound }
{}

/// A run up to what was found in it is confirmed.
pub fn found_runs_are_confirmed()
    ensures { FoundRunsAreConfirmed }
{}

/// Of an assignment that satisfies the clauses of the unrolled circuit something is found.
pub fn answers_are_found()
    ensures { AnswersAreFound }
{}

/// An answer has one witness at most.
pub fn answers_have_one_witness()
    ensures { AnswersHaveOneWitness }
{}

/// The witness file that is written of a claim says it.
pub fn witness_texts_say()
    ensures { WitnessTextsSay }
{}

/// Where the clauses of what was selected are refuted, no claim of that is confirmed in so many
/// steps.
pub fn refuted_means_none()
    ensures { RefutedMeansNone }
{}
