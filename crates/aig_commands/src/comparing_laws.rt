//! Laws of comparison: facts about the definitions alone, each the contract of a function with an
//! empty body.
ghost use Rattle.aig_commands.specs.ComparingLaws.{ConfirmedMeansDifferent, MiterTextsAreFiles};
ghost use Rattle.aig_commands.specs.ComparingLaws.{MiterTextsAreUnambiguous, NeverMeansAlike};
ghost use Rattle.aig_commands.specs.ComparingLaws.{NoneMeansAlike};

/// Two files have one miter text at most.
pub fn miter_texts_are_unambiguous()
    ensures { MiterTextsAreUnambiguous }
{}

/// A miter text is the file of one circuit, which means what the miter of both circuits does.
pub fn miter_texts_are_files()
    ensures { MiterTextsAreFiles }
{}

/// Where it is written of a miter's file that nothing is reached within so many frames, the two
/// circuits are alike for so many steps.
pub fn none_means_alike()
    ensures { NoneMeansAlike }
{}

/// Where it is written of a miter's file that nothing is ever reached, the two circuits are alike
/// at every step.
pub fn never_means_alike()
    ensures { NeverMeansAlike }
{}

/// Where a witness file of a miter's file is confirmed, the two circuits are not alike.
pub fn confirmed_means_different()
    ensures { ConfirmedMeansDifferent }
{}
