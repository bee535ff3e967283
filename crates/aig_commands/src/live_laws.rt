//! Laws of witness files of justice properties, each the contract of a function with an empty body.
ghost use Rattle.aig_commands.specs.LiveLaws.{LassoAnswersAreConfirmed, NeverMeansNoneIsConfirmed};
ghost use Rattle.aig_commands.specs.LiveLaws.{RefutationsMeanNoneIsConfirmed, RightLassosAreConfirmed};

/// Each lasso of a circuit is claimed by a witness file, which is confirmed for every file of the
/// circuit.
pub fn right_lassos_are_confirmed()
    ensures { RightLassosAreConfirmed }
{}

/// What is written for a model, a justice property and a solver's answer is a witness file that is
/// confirmed.
pub fn lasso_answers_are_confirmed()
    ensures { LassoAnswersAreConfirmed }
{}

/// Where it is written that there is no lasso of so few steps, no witness file of one is confirmed.
pub fn refutations_mean_none_is_confirmed()
    ensures { RefutationsMeanNoneIsConfirmed }
{}

/// Where it is written that there never is one, none is confirmed, however long it is.
pub fn never_means_none_is_confirmed()
    ensures { NeverMeansNoneIsConfirmed }
{}
