//! Laws: facts about the definitions alone, each the contract of a function with an empty body.
ghost use Rattle.aig_step.specs.Laws.{StimuliAreRead};

/// What is read of a stimulus, line by line, is what the texts of its lines are, up to the first
/// bad one.
pub fn stimuli_are_read()
    ensures { StimuliAreRead }
{}
