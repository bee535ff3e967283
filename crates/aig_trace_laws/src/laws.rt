//! Laws: facts about the definitions alone, each the contract of a function with an empty body.
ghost use Rattle.aig_trace_laws.specs.Laws.{OneTraceText, SameMeaningSameText, KnownCharactersStay};

/// A stimulus has exactly one trace text over a well-formed circuit.
#[tactic(auto, using(crate::proofs::Texts::one_trace_text))]
pub fn one_trace_text()
    ensures { OneTraceText }
{}

/// Circuits that mean the same have the same trace texts.
#[tactic(auto, using(crate::proofs::Texts::same_meaning_same_text))]
pub fn same_meaning_same_text()
    ensures { SameMeaningSameText }
{}

/// Where x in a stimulus becomes 0 or 1, each 0 and each 1 of the trace text stays.
#[tactic(auto, using(crate::proofs::Texts::known_characters_stay))]
pub fn known_characters_stay()
    ensures { KnownCharactersStay }
{}
