//! Laws: facts about the definitions alone, each the contract of a function with an empty body.
ghost use Rattle.aig_meaning.specs.Laws.{OneStepAssignment, OneRow, OneTrace};
ghost use Rattle.aig_meaning.specs.Laws.{ResetStateIsFirst, TraceGoesOn};
ghost use Rattle.aig_meaning.specs.Laws.{SameMeaningSameTraces, KnownValuesStay};
ghost use Rattle.aig_meaning.specs.Laws.{CompletionsKeepKnownValues};

/// A well-formed circuit has exactly one step assignment for each state and each vector of inputs.
#[tactic(auto, using(crate::proofs::Existing::one_step_assignment))]
pub fn one_step_assignment()
    ensures { OneStepAssignment }
{}

/// A well-formed circuit has exactly one row for each state and each vector of inputs.
#[tactic(auto, using(crate::proofs::Traces::one_row))]
pub fn one_row()
    ensures { OneRow }
{}

/// A well-formed circuit has exactly one trace of each stimulus from each first state.
#[tactic(auto, using(crate::proofs::Traces::one_trace))]
pub fn one_trace()
    ensures { OneTrace }
{}

/// The state by the resets, x where a latch is uninitialised, is one in which a trace may start.
#[tactic(auto, using(crate::proofs::Traces::reset_state_is_first))]
pub fn reset_state_is_first()
    ensures { ResetStateIsFirst }
{}

/// A trace goes on by any row from the state in which it ended.
#[tactic(auto, using(crate::proofs::Traces::trace_goes_on))]
pub fn trace_goes_on()
    ensures { TraceGoesOn }
{}

/// Circuits that mean the same have the same traces.
pub fn same_meaning_same_traces()
    ensures { SameMeaningSameTraces }
{}

/// Where more is known of the first state and the stimulus, all that was known before stays.
#[tactic(auto, using(crate::proofs::Traces::known_values_stay))]
pub fn known_values_stay()
    ensures { KnownValuesStay }
{}

/// Wherever a trace shows 0 or 1, the trace of each completion shows it too.
#[tactic(auto, using(crate::proofs::Traces::completions_keep_known_values))]
pub fn completions_keep_known_values()
    ensures { CompletionsKeepKnownValues }
{}
