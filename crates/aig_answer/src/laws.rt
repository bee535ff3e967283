//! Laws: facts about the definitions alone, each the contract of a function with an empty body.
ghost use Rattle.aig_answer.specs.Laws.{AnswersAreRead, StatusesAreRead};

/// The text of values, in lines of any length and between comments, is read as these values.
pub fn answers_are_read()
    ensures { AnswersAreRead }
{}

/// A status without values, between comments, is read as this status.
pub fn statuses_are_read()
    ensures { StatusesAreRead }
{}
