//! Laws: facts about the definitions alone, each the contract of a function with an empty body.
ghost use Rattle.aig_verdicts.specs.Laws.{JusticeClaimsHaveVerdicts, JusticeFilesAreRead, LassosHaveFiles};
ghost use Rattle.aig_verdicts.specs.Laws.{CommentsArePassedOver, OneVerdictAtMost, PlainFilesAreReadAsTheyAre};

/// Each claim of a justice property that can be made of a well-formed circuit, by a trace of it, is
/// said by the witness file that has its texts.
pub fn lassos_have_files()
    ensures { LassosHaveFiles }
{}

/// A file is read as a witness file of a justice property exactly where its texts are those of one.
pub fn justice_files_are_read()
    ensures { JusticeFilesAreRead }
{}

/// What a witness file claims of a justice property with goals that a circuit may have, has a
/// verdict.
pub fn justice_claims_have_verdicts()
    ensures { JusticeClaimsHaveVerdicts }
{}

/// A witness file claims one thing, and has one verdict at most.
pub fn one_verdict_at_most()
    ensures { OneVerdictAtMost }
{}

/// The lines of a file without its comments are those that are no comments.
pub fn comments_are_passed_over()
    ensures { CommentsArePassedOver }
{}

/// A file without comments is read as it is, and its lines have the numbers that they have.
pub fn plain_files_are_read_as_they_are()
    ensures { PlainFilesAreReadAsTheyAre }
{}
