//! Laws: facts about the definitions alone, each the contract of a function with an empty body.
ghost use Rattle.aig_witness.specs.Laws.{ClaimsHaveFiles, FirstWrongLinesAreFound, OneVerdict};
ghost use Rattle.aig_witness.specs.Laws.{WitnessFilesAreRead};

/// What is read of a witness file, line by line, is what the file as a whole says.
pub fn witness_files_are_read()
    ensures { WitnessFilesAreRead }
{}

/// The line of a witness file that is found to be the first wrong one, or missing, is what the
/// texts of its lines say.
#[tactic(auto, using(crate::proofs::Verdicts::first_wrong_lines_are_found))]
pub fn first_wrong_lines_are_found()
    ensures { FirstWrongLinesAreFound }
{}

/// What a witness file claims of a well-formed circuit has exactly one verdict.
#[tactic(auto, using(crate::proofs::Verdicts::one_verdict))]
pub fn one_verdict()
    ensures { OneVerdict }
{}

/// Each claim that can be made of a well-formed circuit, by a trace of it, is said by some witness
/// file.
#[tactic(auto, using(crate::proofs::Verdicts::claims_have_files))]
pub fn claims_have_files()
    ensures { ClaimsHaveFiles }
{}
